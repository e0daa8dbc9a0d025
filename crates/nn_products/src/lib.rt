// The nonnegative cone (source document 001, nonnegativecone.rs): mul_W and mul_Winv. The bare calls, and behind each the kernel that it
// calls once nothing is refused.
#![tactic(auto, using(answers::proofs::Laws::outcomes, answers::proofs::Laws::fits, vecmath::proofs::Loops::loops), unfolding(crate::specs::Products::nonneg_mul_w, crate::specs::Products::nonneg_mul_winv))]

ghost use Rattle.std.specs.Prelude.{◌≡◌, [], ◌∷◌, length};
ghost use Rattle.answers.specs.Refusal.{Fit};
ghost use Rattle.answers.specs.Outcome.{tells, of_answer, ◌⨾◌};
ghost use Rattle.nn_products.specs.Products.{nonneg_mul_w, nonneg_mul_winv, nn_mul_w, nn_mul_winv};

use answers::Refusal;

pub fn mul_w(y: &mut [f64], x: &[f64], alpha: f64, beta: f64, w: &[f64])
    requires { Fit 0 (length y.old) (length x.now ∷ length w.now ∷ []) }
    ensures { y.new ≡ nonneg_mul_w y.old x.now alpha beta w.now }
{
    for (i, v) in y.iter_mut().enumerate() {
        *v = alpha * (x[i] * w[i]) + beta * *v;
    }
}

// y = alpha·W·x + beta·y
pub fn nn_mul_w(y: &mut [f64], x: &[f64], alpha: f64, beta: f64, w: &[f64]) -> Result<(), Refusal>
    ensures { tells (of_answer result) (y.new ⨾ tt) ≡ nn_mul_w y.old x.now alpha beta w.now }
{
    answers::check(0, y.len(), (x.len() == y.len()) & (w.len() == y.len()))?;
    mul_w(y, x, alpha, beta, w);
    Ok(())
}

pub fn mul_winv(y: &mut [f64], x: &[f64], alpha: f64, beta: f64, w: &[f64])
    requires { Fit 0 (length y.old) (length x.now ∷ length w.now ∷ []) }
    ensures { y.new ≡ nonneg_mul_winv y.old x.now alpha beta w.now }
{
    for (i, v) in y.iter_mut().enumerate() {
        *v = alpha * (x[i] / w[i]) + beta * *v;
    }
}

// y = alpha·W⁻¹·x + beta·y
pub fn nn_mul_winv(
    y: &mut [f64],
    x: &[f64],
    alpha: f64,
    beta: f64,
    w: &[f64],
) -> Result<(), Refusal>
    ensures { tells (of_answer result) (y.new ⨾ tt) ≡ nn_mul_winv y.old x.now alpha beta w.now }
{
    answers::check(0, y.len(), (x.len() == y.len()) & (w.len() == y.len()))?;
    mul_winv(y, x, alpha, beta, w);
    Ok(())
}
