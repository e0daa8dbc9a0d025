// mul_hs of one cone of a list (document 01, "Second-order rules" and "Nonnegative rules"; of marks document 02, item 4), over the cone's
// place. For each: by the cone's kind, on the cone's own ranges, and the call. Written by tools/surface.
#![tactic(auto, using(answers::proofs::Laws::outcomes))]

ghost use Rattle.std.specs.Prelude.{◌≡◌, [], ◌∷◌, length};
ghost use Rattle.answers.specs.Refusal.{Fit};
ghost use Rattle.answers.specs.Outcome.{tells, of_answer, ◌⨾◌};
ghost use Rattle.conelist.specs.Layout.{least_dim, Open};
ghost use Rattle.conecalls.specs.Deed.{comes_at, works_at};
ghost use Rattle.list_mul_hs.specs.Block.{kind_mul_hs, mul_hs_unmarked, mul_hs_deed};

use answers::Refusal;
use conelist::{Kind, Place};

// ---- mul_hs (source documents 000, lines 248 to 256, and 001, lines 103 to 108): y = Hs*x; of a nonnegative cone y = w*(w*x)

fn kind_mul_hs(kind: Kind, y: &mut [f64], x: &[f64], w: &[f64], eta: f64)
    requires { Fit (least_dim kind) (length y.old) (length x.now ∷ length w.now ∷ []) }
    ensures { y.new ≡ kind_mul_hs kind x.now w.now eta }
{
    match kind {
        Kind::Nonnegative(n) => nn_mul_hs::mul_hs(y, x, w),
        Kind::SecondOrder(n) => soc_mul_hs::mul_hs(y, x, w, eta),
    }
}

fn mul_hs_in(p: Place, y: &mut [f64], x: &[f64], w: &[f64], eta: &[f64])
    requires { Open p ((length y.old, p.entries) ∷ (length x.now, p.entries) ∷ (length w.now, p.entries) ∷ (length eta.now, p.count) ∷ []) }
    ensures { y.new ⨾ tt ≡ (works_at p mul_hs_unmarked y.old x.now w.now eta.now).news }
{
    let at = p.start;
    let kind = p.kind;
    let k = p.index;
    let end = at + kind.dim();
    kind_mul_hs(kind, &mut y[at..end], &x[at..end], &w[at..end], eta[k]);
}

pub fn mul_hs_at(
    p: Place,
    y: &mut [f64],
    x: &[f64],
    w: &[f64],
    eta: &[f64],
    marks: &[u8],
) -> Result<(), Refusal>
    ensures { tells (of_answer result) (y.new ⨾ tt) ≡ comes_at p mul_hs_deed y.old x.now w.now eta.now marks.now }
{
    let entries = p.entries;
    let count = p.count;
    let same = (y.len() == entries)
        & (x.len() == entries)
        & (w.len() == entries)
        & (eta.len() == count)
        & (marks.len() == count);
    p.check(same)?;
    marks::check_set(p, marks)?;
    mul_hs_in(p, y, x, w, eta);
    Ok(())
}
