// The second-order cone's products with W and its inverse (source document 000, lines 504 to 530): the bare calls, and behind each the
// kernel that it calls once nothing is refused.
#![tactic(auto, using(answers::proofs::Laws::outcomes, answers::proofs::Laws::fits), unfolding(crate::specs::Product::mul_w, crate::specs::Product::mul_winv))]

ghost use Rattle.std.specs.Prelude.{◌≡◌, [], ◌∷◌, length};
ghost use Rattle.answers.specs.Refusal.{Fit};
ghost use Rattle.answers.specs.Outcome.{tells, of_answer, ◌⨾◌};
ghost use Rattle.soc_products.specs.Product.{mul_w, mul_winv, soc_mul_w, soc_mul_winv};

use answers::Refusal;

pub fn mul_w(y: &mut [f64], x: &[f64], alpha: f64, beta: f64, w: &[f64], eta: f64)
    requires { Fit 2 (length y.old) (length x.now ∷ length w.now ∷ []) }
    ensures { y.new ≡ mul_w y.old x.now alpha beta w.now eta }
{
    let zeta = tails::dot(w, x);
    let c = x[0] + zeta / (1.0 + w[0]);
    let y0 = (alpha * eta) * (w[0] * x[0] + zeta) + beta * y[0];
    tails_write::set_first(y, y0);
    tails_twice::axpby_twice(y, alpha * eta * c, w, beta, alpha * eta, x);
}

// y = alpha·W·x + beta·y
pub fn soc_mul_w(
    y: &mut [f64],
    x: &[f64],
    alpha: f64,
    beta: f64,
    w: &[f64],
    eta: &f64,
) -> Result<(), Refusal>
    ensures { tells (of_answer result) (y.new ⨾ tt)
        ≡ soc_mul_w y.old x.now alpha beta w.now eta.now }
{
    answers::check(2, y.len(), (x.len() == y.len()) & (w.len() == y.len()))?;
    mul_w(y, x, alpha, beta, w, *eta);
    Ok(())
}

pub fn mul_winv(y: &mut [f64], x: &[f64], alpha: f64, beta: f64, w: &[f64], eta: f64)
    requires { Fit 2 (length y.old) (length x.now ∷ length w.now ∷ []) }
    ensures { y.new ≡ mul_winv y.old x.now alpha beta w.now eta }
{
    let zeta = tails::dot(w, x);
    let c = -x[0] + zeta / (1.0 + w[0]);
    let y0 = (alpha / eta) * (w[0] * x[0] - zeta) + beta * y[0];
    tails_write::set_first(y, y0);
    tails_twice::axpby_twice(y, alpha / eta * c, w, beta, alpha / eta, x);
}

// y = alpha·W⁻¹·x + beta·y
pub fn soc_mul_winv(
    y: &mut [f64],
    x: &[f64],
    alpha: f64,
    beta: f64,
    w: &[f64],
    eta: &f64,
) -> Result<(), Refusal>
    ensures { tells (of_answer result) (y.new ⨾ tt)
        ≡ soc_mul_winv y.old x.now alpha beta w.now eta.now }
{
    answers::check(2, y.len(), (x.len() == y.len()) & (w.len() == y.len()))?;
    mul_winv(y, x, alpha, beta, w, *eta);
    Ok(())
}
