// The standing of one cone of a list (document 01, "Standing"), over the cone's place: by the cone's kind, on the cone's own range, and the
// call.
#![tactic(auto, using(answers::proofs::Laws::outcomes))]

ghost use Rattle.std.specs.Prelude.{◌≡◌, [], ◌∷◌, length};
ghost use Rattle.answers.specs.Refusal.{Fit};
ghost use Rattle.answers.specs.Outcome.{of_stands, tells};
ghost use Rattle.conelist.specs.Layout.{least_dim, Open, range_of};
ghost use Rattle.conecalls.specs.Deed.{comes_at};
ghost use Rattle.list_standing.specs.Standing.{kind_standing, standing_deed};

use answers::{Refusal, Standing};
use conelist::{Kind, Place};

fn kind_standing(kind: Kind, z: &[f64]) -> Standing
    requires { Fit (least_dim kind) (length z.now) [] }
    ensures { result ≡ kind_standing kind z.now }
{
    match kind {
        Kind::Nonnegative(n) => standing::nonnegative(z),
        Kind::SecondOrder(n) => standing::second_order(z),
    }
}

fn standing_in(p: Place, z: &[f64]) -> Standing
    requires { Open p ((length z.now, p.entries) ∷ []) }
    ensures { result ≡ kind_standing p.kind (range_of p z.now) }
{
    let at = p.start;
    let kind = p.kind;
    let end = at + kind.dim();
    kind_standing(kind, &z[at..end])
}

pub fn standing_at(p: Place, z: &[f64]) -> Result<Standing, Refusal>
    ensures { tells (of_stands result) tt ≡ comes_at p standing_deed z.now }
{
    let entries = p.entries;
    p.check(z.len() == entries)?;
    Ok(standing_in(p, z))
}
