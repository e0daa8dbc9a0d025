// The nonnegative cone (source document 001, nonnegativecone.rs): get_Hs. The bare call, and behind it the kernel that it calls once
// nothing is refused.
#![tactic(auto, using(answers::proofs::Laws::outcomes, answers::proofs::Laws::fits))]

ghost use Rattle.std.specs.Prelude.{◌≡◌, [], ◌∷◌, length};
ghost use Rattle.answers.specs.Refusal.{Fit};
ghost use Rattle.answers.specs.Outcome.{tells, of_answer, ◌⨾◌};
ghost use Rattle.nn_blocks.specs.Block.{nonneg_hs, nn_get_hs};

use answers::Refusal;

pub fn get_hs(hs: &mut [f64], w: &[f64])
    requires { Fit 0 (length w.now) (length hs.old ∷ []) }
    ensures { hs.new ≡ nonneg_hs w.now }
{
    vectimes::multiply(hs, w, w);
}

// hs = w², entry by entry
pub fn nn_get_hs(hs: &mut [f64], w: &[f64]) -> Result<(), Refusal>
    ensures { tells (of_answer result) (hs.new ⨾ tt) ≡ nn_get_hs hs.old w.now }
{
    answers::check(0, w.len(), hs.len() == w.len())?;
    get_hs(hs, w);
    Ok(())
}
