// The nonnegative cone (source document 001, nonnegativecone.rs): the Jordan product and affine_ds. The bare calls, and behind each the
// kernel that it calls once nothing is refused.
#![tactic(auto, using(answers::proofs::Laws::outcomes, answers::proofs::Laws::fits))]

ghost use Rattle.std.specs.Prelude.{◌≡◌, [], ◌∷◌, length};
ghost use Rattle.answers.specs.Refusal.{Fit};
ghost use Rattle.answers.specs.Outcome.{tells, of_answer, ◌⨾◌};
ghost use Rattle.nn_jordan.specs.Jordan.{nonneg_affine_ds, nonneg_circ, nn_affine_ds, nn_circ_op};

use answers::Refusal;

// ---- the Jordan product

pub fn circ_op(x: &mut [f64], y: &[f64], z: &[f64])
    requires { Fit 0 (length x.old) (length y.now ∷ length z.now ∷ []) }
    ensures { x.new ≡ nonneg_circ y.now z.now }
{
    vectimes::multiply(x, y, z);
}

// x = y ∘ z
pub fn nn_circ_op(x: &mut [f64], y: &[f64], z: &[f64]) -> Result<(), Refusal>
    ensures { tells (of_answer result) (x.new ⨾ tt) ≡ nn_circ_op x.old y.now z.now }
{
    answers::check(0, x.len(), (y.len() == x.len()) & (z.len() == x.len()))?;
    circ_op(x, y, z);
    Ok(())
}

// ---- the affine part of ds

pub fn affine_ds(ds: &mut [f64], lambda: &[f64])
    requires { Fit 0 (length ds.old) (length lambda.now ∷ []) }
    ensures { ds.new ≡ nonneg_affine_ds lambda.now }
{
    vectimes::multiply(ds, lambda, lambda);
}

// ds = lambda·lambda, entry by entry
pub fn nn_affine_ds(ds: &mut [f64], lambda: &[f64]) -> Result<(), Refusal>
    ensures { tells (of_answer result) (ds.new ⨾ tt) ≡ nn_affine_ds ds.old lambda.now }
{
    answers::check(0, ds.len(), lambda.len() == ds.len())?;
    affine_ds(ds, lambda);
    Ok(())
}
