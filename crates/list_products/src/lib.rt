// mul_w, mul_winv of one cone of a list (document 01, "Second-order rules" and "Nonnegative rules"; of marks document 02, item 4), over the
// cone's place. For each: by the cone's kind, on the cone's own ranges, and the call. Written by tools/surface.
#![tactic(auto, using(answers::proofs::Laws::outcomes))]

ghost use Rattle.std.specs.Prelude.{◌≡◌, [], ◌∷◌, length};
ghost use Rattle.answers.specs.Refusal.{Fit};
ghost use Rattle.answers.specs.Outcome.{tells, of_answer, ◌⨾◌};
ghost use Rattle.conelist.specs.Layout.{least_dim, Open};
ghost use Rattle.conecalls.specs.Deed.{comes_at, works_at};
ghost use Rattle.list_products.specs.Product.{kind_mul_w, mul_w_unmarked, mul_w_deed, kind_mul_winv, mul_winv_unmarked, mul_winv_deed};

use answers::Refusal;
use conelist::{Kind, Place};

// ---- mul_w (source documents 000, lines 329 to 332 and 504 to 516, and 001, lines 181 to 187): y = alpha*W*x + beta*y; of a nonnegative
// cone y = alpha*(x*w) + beta*y

fn kind_mul_w(kind: Kind, y: &mut [f64], x: &[f64], alpha: f64, beta: f64, w: &[f64], eta: f64)
    requires { Fit (least_dim kind) (length y.old) (length x.now ∷ length w.now ∷ []) }
    ensures { y.new ≡ kind_mul_w kind y.old x.now alpha beta w.now eta }
{
    match kind {
        Kind::Nonnegative(n) => nn_products::mul_w(y, x, alpha, beta, w),
        Kind::SecondOrder(n) => soc_products::mul_w(y, x, alpha, beta, w, eta),
    }
}

fn mul_w_in(p: Place, y: &mut [f64], x: &[f64], alpha: f64, beta: f64, w: &[f64], eta: &[f64])
    requires { Open p ((length y.old, p.entries) ∷ (length x.now, p.entries) ∷ (length w.now, p.entries) ∷ (length eta.now, p.count) ∷ []) }
    ensures { y.new ⨾ tt ≡ (works_at p (mul_w_unmarked alpha beta) y.old x.now w.now eta.now).news }
{
    let at = p.start;
    let kind = p.kind;
    let k = p.index;
    let end = at + kind.dim();
    kind_mul_w(
        kind,
        &mut y[at..end],
        &x[at..end],
        alpha,
        beta,
        &w[at..end],
        eta[k],
    );
}

pub fn mul_w_at(
    p: Place,
    y: &mut [f64],
    x: &[f64],
    alpha: f64,
    beta: f64,
    w: &[f64],
    eta: &[f64],
    marks: &[u8],
) -> Result<(), Refusal>
    ensures { tells (of_answer result) (y.new ⨾ tt)
        ≡ comes_at p (mul_w_deed alpha beta) y.old x.now w.now eta.now marks.now }
{
    let entries = p.entries;
    let count = p.count;
    let same = (y.len() == entries)
        & (x.len() == entries)
        & (w.len() == entries)
        & (eta.len() == count)
        & (marks.len() == count);
    p.check(same)?;
    marks::check_set(p, marks)?;
    mul_w_in(p, y, x, alpha, beta, w, eta);
    Ok(())
}

// ---- mul_winv (source documents 000, lines 334 to 336 and 518 to 530, and 001, lines 189 to 195): y = alpha*x/W + beta*y, with W's
// inverse; of a nonnegative cone y = alpha*(x/w) + beta*y

fn kind_mul_winv(kind: Kind, y: &mut [f64], x: &[f64], alpha: f64, beta: f64, w: &[f64], eta: f64)
    requires { Fit (least_dim kind) (length y.old) (length x.now ∷ length w.now ∷ []) }
    ensures { y.new ≡ kind_mul_winv kind y.old x.now alpha beta w.now eta }
{
    match kind {
        Kind::Nonnegative(n) => nn_products::mul_winv(y, x, alpha, beta, w),
        Kind::SecondOrder(n) => soc_products::mul_winv(y, x, alpha, beta, w, eta),
    }
}

fn mul_winv_in(p: Place, y: &mut [f64], x: &[f64], alpha: f64, beta: f64, w: &[f64], eta: &[f64])
    requires { Open p ((length y.old, p.entries) ∷ (length x.now, p.entries) ∷ (length w.now, p.entries) ∷ (length eta.now, p.count) ∷ []) }
    ensures { y.new ⨾ tt ≡ (works_at p (mul_winv_unmarked alpha beta) y.old x.now w.now eta.now).news }
{
    let at = p.start;
    let kind = p.kind;
    let k = p.index;
    let end = at + kind.dim();
    kind_mul_winv(
        kind,
        &mut y[at..end],
        &x[at..end],
        alpha,
        beta,
        &w[at..end],
        eta[k],
    );
}

pub fn mul_winv_at(
    p: Place,
    y: &mut [f64],
    x: &[f64],
    alpha: f64,
    beta: f64,
    w: &[f64],
    eta: &[f64],
    marks: &[u8],
) -> Result<(), Refusal>
    ensures { tells (of_answer result) (y.new ⨾ tt)
        ≡ comes_at p (mul_winv_deed alpha beta) y.old x.now w.now eta.now marks.now }
{
    let entries = p.entries;
    let count = p.count;
    let same = (y.len() == entries)
        & (x.len() == entries)
        & (w.len() == entries)
        & (eta.len() == count)
        & (marks.len() == count);
    p.check(same)?;
    marks::check_set(p, marks)?;
    mul_winv_in(p, y, x, alpha, beta, w, eta);
    Ok(())
}
