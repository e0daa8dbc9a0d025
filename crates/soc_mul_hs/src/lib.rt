// The second-order cone's product with Hs (source document 000, lines 248 to 256): the bare call, and behind it the kernel that it calls
// once nothing is refused.
#![tactic(auto, using(answers::proofs::Laws::outcomes, answers::proofs::Laws::fits), unfolding(crate::specs::Block::mul_hs))]

ghost use Rattle.std.specs.Prelude.{◌≡◌, [], ◌∷◌, length};
ghost use Rattle.answers.specs.Refusal.{Fit};
ghost use Rattle.answers.specs.Outcome.{tells, of_answer, ◌⨾◌};
ghost use Rattle.soc_mul_hs.specs.Block.{mul_hs, soc_mul_hs};

use answers::Refusal;

pub fn mul_hs(y: &mut [f64], x: &[f64], w: &[f64], eta: f64)
    requires { Fit 2 (length y.old) (length x.now ∷ length w.now ∷ []) }
    ensures { y.new ≡ mul_hs x.now w.now eta }
{
    let c = folds::dot(w, x) * 2.0;
    vecmath::copy_from(y, x);
    tails_write::set_first(y, -x[0]);
    vecaxpby::axpby(y, c, w, 1.0);
    vecscale::scale(y, eta * eta);
}

// y = Hs·x
pub fn soc_mul_hs(y: &mut [f64], x: &[f64], w: &[f64], eta: &f64) -> Result<(), Refusal>
    ensures { tells (of_answer result) (y.new ⨾ tt)
        ≡ soc_mul_hs y.old x.now w.now eta.now }
{
    answers::check(2, y.len(), (x.len() == y.len()) & (w.len() == y.len()))?;
    mul_hs(y, x, w, *eta);
    Ok(())
}
