// The nonnegative cone (source document 001, nonnegativecone.rs): the inverse of the Jordan product, and the same by lambda. The bare
// calls, and behind each the kernel that it calls once nothing is refused.
#![tactic(auto, using(answers::proofs::Laws::outcomes, answers::proofs::Laws::fits))]

ghost use Rattle.std.specs.Prelude.{◌≡◌, [], ◌∷◌, length};
ghost use Rattle.answers.specs.Refusal.{Fit};
ghost use Rattle.answers.specs.Outcome.{tells, of_answer, ◌⨾◌};
ghost use Rattle.nn_inverse.specs.Inverse.{nonneg_inv_circ, nn_inv_circ_op, nn_lambda_inv_circ_op};

use answers::Refusal;

pub fn inv_circ_op(x: &mut [f64], y: &[f64], z: &[f64])
    requires { Fit 0 (length x.old) (length y.now ∷ length z.now ∷ []) }
    ensures { x.new ≡ nonneg_inv_circ y.now z.now }
{
    vectimes::divide(x, y, z);
}

// x = y \ z
pub fn nn_inv_circ_op(x: &mut [f64], y: &[f64], z: &[f64]) -> Result<(), Refusal>
    ensures { tells (of_answer result) (x.new ⨾ tt) ≡ nn_inv_circ_op x.old y.now z.now }
{
    answers::check(0, x.len(), (y.len() == x.len()) & (z.len() == x.len()))?;
    inv_circ_op(x, y, z);
    Ok(())
}

pub fn lambda_inv_circ_op(x: &mut [f64], z: &[f64], lambda: &[f64])
    requires { Fit 0 (length x.old) (length z.now ∷ length lambda.now ∷ []) }
    ensures { x.new ≡ nonneg_inv_circ lambda.now z.now }
{
    inv_circ_op(x, lambda, z);
}

// x = lambda \ z
pub fn nn_lambda_inv_circ_op(x: &mut [f64], z: &[f64], lambda: &[f64]) -> Result<(), Refusal>
    ensures { tells (of_answer result) (x.new ⨾ tt) ≡ nn_lambda_inv_circ_op x.old z.now lambda.now }
{
    answers::check(0, x.len(), (z.len() == x.len()) & (lambda.len() == x.len()))?;
    lambda_inv_circ_op(x, z, lambda);
    Ok(())
}
