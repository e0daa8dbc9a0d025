// The block Hs of one cone of a list as a square matrix (document 01, "Forms by place"; source document 000, lines 217 to 246), over the
// cone's place: on the cone's own ranges, and the call, which needs a mark (document 02, item 4).
#![tactic(auto, using(answers::proofs::Laws::outcomes))]

ghost use Rattle.std.specs.Prelude.{◌≡◌, [], ◌∷◌, map, length};
ghost use Rattle.vecmath.specs.Double.{◌!◌};
ghost use Rattle.answers.specs.Refusal.{number_in};
ghost use Rattle.answers.specs.Outcome.{tells, of_rows, of_square, as_squared};
ghost use Rattle.soc_square.specs.Square.{square_hs};
ghost use Rattle.conelist.specs.Layout.{Open, range_of};
ghost use Rattle.conecalls.specs.Deed.{comes_at};
ghost use Rattle.list_square.specs.Square.{kind_not_dense, square_hs_deed};

use answers::{Refusal, Row, Square};
use conelist::{Kind, Place};

// A nonnegative cone is never dense.
#[tactic(auto, unfolding(crate::specs::Square::kind_not_dense))]
fn check_dense(kind: Kind) -> Result<(), Refusal>
    ensures { number_in result ≡ kind_not_dense kind }
{
    match kind {
        Kind::Nonnegative(n) => Err(Refusal::Dense),
        Kind::SecondOrder(n) => answers::check_dense(n),
    }
}

fn square_in(p: Place, w: &[f64], eta: &[f64]) -> [Row; 4]
    requires { Open p ((length w.now, p.entries) ∷ (length eta.now, p.count) ∷ []) }
    ensures { map (λ row. row.entries) result ≡ square_hs (range_of p w.now) (eta.now ! p.index) }
{
    let at = p.start;
    let kind = p.kind;
    let k = p.index;
    let end = at + kind.dim();
    soc_square::square_hs(&w[at..end], eta[k])
}

// 7 ranks before 5, and the mark's 8 last.
fn checked_square_hs(p: Place, w: &[f64], eta: &[f64], marks: &[u8]) -> Result<[Row; 4], Refusal>
    ensures { tells (of_rows result) tt ≡ comes_at p square_hs_deed w.now eta.now marks.now }
{
    let entries = p.entries;
    let count = p.count;
    p.check_spot()?;
    check_dense(p.kind)?;
    answers::check_length((w.len() == entries) & (eta.len() == count) & (marks.len() == count))?;
    marks::check_set(p, marks)?;
    Ok(square_in(p, w, eta))
}

pub fn square_hs_at(p: Place, w: &[f64], eta: &[f64], marks: &[u8]) -> Square
    ensures { of_square result ≡ as_squared (comes_at p square_hs_deed w.now eta.now marks.now).ruling }
{
    Square::from(checked_square_hs(p, w, eta, marks))
}
