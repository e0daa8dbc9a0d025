// The nonnegative cone (source document 001, nonnegativecone.rs): mul_Hs. The bare call, and behind it the kernel that it calls once
// nothing is refused.
#![tactic(auto, using(answers::proofs::Laws::outcomes, answers::proofs::Laws::fits, vecmath::proofs::Loops::loops), unfolding(crate::specs::Block::nonneg_mul_hs))]

ghost use Rattle.std.specs.Prelude.{◌≡◌, [], ◌∷◌, length};
ghost use Rattle.answers.specs.Refusal.{Fit};
ghost use Rattle.answers.specs.Outcome.{tells, of_answer, ◌⨾◌};
ghost use Rattle.nn_mul_hs.specs.Block.{nonneg_mul_hs, nn_mul_hs};

use answers::Refusal;

pub fn mul_hs(y: &mut [f64], x: &[f64], w: &[f64])
    requires { Fit 0 (length y.old) (length x.now ∷ length w.now ∷ []) }
    ensures { y.new ≡ nonneg_mul_hs x.now w.now }
{
    for (i, v) in y.iter_mut().enumerate() {
        *v = w[i] * (w[i] * x[i]);
    }
}

// y = w·(w·x), entry by entry
pub fn nn_mul_hs(y: &mut [f64], x: &[f64], w: &[f64]) -> Result<(), Refusal>
    ensures { tells (of_answer result) (y.new ⨾ tt) ≡ nn_mul_hs y.old x.now w.now }
{
    answers::check(0, y.len(), (x.len() == y.len()) & (w.len() == y.len()))?;
    mul_hs(y, x, w);
    Ok(())
}
