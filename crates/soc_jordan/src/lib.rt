// The second-order cone's Jordan product (source document 000, lines 258 to 260, 347 to 349 and 360 to 367): the bare calls, and behind each
// the kernel that it calls once nothing is refused.
#![tactic(auto, using(answers::proofs::Laws::outcomes, answers::proofs::Laws::fits), unfolding(crate::specs::Jordan::circ))]

ghost use Rattle.std.specs.Prelude.{◌≡◌, [], ◌∷◌, length};
ghost use Rattle.answers.specs.Refusal.{Fit};
ghost use Rattle.answers.specs.Outcome.{tells, of_answer, ◌⨾◌};
ghost use Rattle.soc_jordan.specs.Jordan.{circ, soc_circ_op, soc_affine_ds};

use answers::Refusal;

pub fn circ_op(x: &mut [f64], y: &[f64], z: &[f64])
    requires { Fit 2 (length x.old) (length y.now ∷ length z.now ∷ []) }
    ensures { x.new ≡ circ y.now z.now }
{
    let x0 = folds::dot(y, z);
    tails_write::set_first(x, x0);
    tails_write::waxpby(x, y[0], z, z[0], y);
}

// x = y ∘ z
pub fn soc_circ_op(x: &mut [f64], y: &[f64], z: &[f64]) -> Result<(), Refusal>
    ensures { tells (of_answer result) (x.new ⨾ tt) ≡ soc_circ_op x.old y.now z.now }
{
    answers::check(2, x.len(), (y.len() == x.len()) & (z.len() == x.len()))?;
    circ_op(x, y, z);
    Ok(())
}

// ds = lambda ∘ lambda
pub fn soc_affine_ds(ds: &mut [f64], lambda: &[f64]) -> Result<(), Refusal>
    ensures { tells (of_answer result) (ds.new ⨾ tt) ≡ soc_affine_ds ds.old lambda.now }
{
    answers::check(2, ds.len(), lambda.len() == ds.len())?;
    circ_op(ds, lambda, lambda);
    Ok(())
}
