// The inverse of the second-order cone's Jordan product, and the same by lambda (source document 000, lines 325 to 327, 351 to 353 and 369 to
// 382): the bare calls, and behind each the kernel that it calls once nothing is refused.
#![tactic(auto, using(answers::proofs::Laws::outcomes, answers::proofs::Laws::fits), unfolding(crate::specs::Inverse::inv_circ))]

ghost use Rattle.std.specs.Prelude.{◌≡◌, [], ◌∷◌, length};
ghost use Rattle.answers.specs.Refusal.{Fit};
ghost use Rattle.answers.specs.Outcome.{tells, of_answer, ◌⨾◌};
ghost use Rattle.soc_inverse.specs.Inverse.{inv_circ, soc_inv_circ_op, soc_lambda_inv_circ_op};

use answers::Refusal;

pub fn inv_circ_op(x: &mut [f64], y: &[f64], z: &[f64])
    requires { Fit 2 (length x.old) (length y.now ∷ length z.now ∷ []) }
    ensures { x.new ≡ inv_circ y.now z.now }
{
    let pinv = 1.0 / soc_residual::residual(y);
    let v = tails::dot(y, z);
    let x0 = (y[0] * z[0] - v) * pinv;
    tails_write::set_first(x, x0);
    let c1 = pinv * (v / y[0] - z[0]);
    let c2 = 1.0 / y[0];
    tails_write::waxpby(x, c1, y, c2, z);
}

// x = y \ z
pub fn soc_inv_circ_op(x: &mut [f64], y: &[f64], z: &[f64]) -> Result<(), Refusal>
    ensures { tells (of_answer result) (x.new ⨾ tt) ≡ soc_inv_circ_op x.old y.now z.now }
{
    answers::check(2, x.len(), (y.len() == x.len()) & (z.len() == x.len()))?;
    inv_circ_op(x, y, z);
    Ok(())
}

// x = lambda \ z
pub fn soc_lambda_inv_circ_op(x: &mut [f64], z: &[f64], lambda: &[f64]) -> Result<(), Refusal>
    ensures { tells (of_answer result) (x.new ⨾ tt) ≡ soc_lambda_inv_circ_op x.old z.now lambda.now }
{
    answers::check(2, x.len(), (z.len() == x.len()) & (lambda.len() == x.len()))?;
    inv_circ_op(x, lambda, z);
    Ok(())
}
