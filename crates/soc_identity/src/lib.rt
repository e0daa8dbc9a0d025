// The second-order cone's identity scaling (source document 000, lines 121 to 132). The bare call, and behind it the kernel that it calls
// once nothing is refused.
#![tactic(auto, using(answers::proofs::Laws::outcomes, answers::proofs::Laws::fits), unfolding(tails::specs::Tail::leading, crate::specs::Identity::identity_scaling))]

ghost use Rattle.std.specs.Prelude.{◌≡◌, [], ◌∷◌, length};
ghost use Rattle.tails.specs.Tail.{leading};
ghost use Rattle.answers.specs.Refusal.{Fit};
ghost use Rattle.answers.specs.Outcome.{tells, of_answer, ◌⨾◌};
ghost use Rattle.soc_identity.specs.Identity.{identity_scaling, soc_set_identity_scaling};

use answers::Refusal;

// x = (a, 0, ..)
fn leading(x: &mut [f64], a: f64)
    requires { Fit 2 (length x.old) [] }
    ensures { x.new ≡ leading (length x.old) a }
{
    vecmath::fill(x, 0.0);
    tails_write::set_first(x, a);
}

pub fn set_identity_scaling(w: &mut [f64], u: &mut [f64], v: &mut [f64], eta: &mut f64, d: &mut f64)
    requires { Fit 2 (length w.old) (length u.old ∷ length v.old ∷ []) }
    ensures { w.new ⨾ u.new ⨾ v.new ⨾ eta.new ⨾ d.new ⨾ tt
        ≡ identity_scaling w.old u.old v.old d.old }
{
    let sparse = 4 < w.len();
    leading(w, 1.0);
    *eta = 1.0;
    if sparse {
        *d = 0.5;
        leading(u, 0.7071067811865476);
        vecmath::fill(v, 0.0);
    }
}

pub fn soc_set_identity_scaling(
    w: &mut [f64],
    u: &mut [f64],
    v: &mut [f64],
    eta: &mut f64,
    d: &mut f64,
) -> Result<(), Refusal>
    ensures { tells (of_answer result) (w.new ⨾ u.new ⨾ v.new ⨾ eta.new ⨾ d.new ⨾ tt)
        ≡ soc_set_identity_scaling w.old u.old v.old eta.old d.old }
{
    answers::check(2, w.len(), (u.len() == w.len()) & (v.len() == w.len()))?;
    set_identity_scaling(w, u, v, eta, d);
    Ok(())
}
