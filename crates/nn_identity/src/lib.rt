// The nonnegative cone (source document 001, nonnegativecone.rs): identity scaling. The bare call, and behind it the kernel that it calls
// once nothing is refused.
#![tactic(auto, using(answers::proofs::Laws::outcomes))]

ghost use Rattle.std.specs.Prelude.{◌≡◌, true, length};
ghost use Rattle.answers.specs.Outcome.{tells, of_answer, ◌⨾◌};
ghost use Rattle.nn_units.specs.Units.{nonneg_unit};
ghost use Rattle.nn_identity.specs.Identity.{nn_set_identity_scaling};

use answers::Refusal;

pub fn set_identity_scaling(w: &mut [f64])
    ensures { w.new ≡ nonneg_unit (length w.old) }
{
    vecmath::fill(w, 1.0);
}

// w = (1, 1, ..)
pub fn nn_set_identity_scaling(w: &mut [f64]) -> Result<(), Refusal>
    ensures { tells (of_answer result) (w.new ⨾ tt) ≡ nn_set_identity_scaling w.old }
{
    answers::check(0, w.len(), true)?;
    set_identity_scaling(w);
    Ok(())
}
