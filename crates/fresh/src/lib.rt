// A fresh state (document 01, "The list and its buffers"), which the source's `new` makes (000, lines 22 to 28 and 45 to 69; 001, lines 20 to
// 26). Any lengths: each buffer is filled by itself, so that nothing is refused, for one cone as for a list.
#![tactic(auto)]

ghost use Rattle.std.specs.Prelude.{◌≡◌};
ghost use Rattle.answers.specs.Outcome.{◌⨾◌};
ghost use Rattle.fresh.specs.State.{fresh_state};

pub fn fresh_state(
    w: &mut [f64],
    lambda: &mut [f64],
    u: &mut [f64],
    v: &mut [f64],
    eta: &mut [f64],
    d: &mut [f64],
)
    ensures { w.new ⨾ lambda.new ⨾ u.new ⨾ v.new ⨾ eta.new ⨾ d.new ⨾ tt
        ≡ fresh_state w.old lambda.old u.old v.old eta.old d.old }
{
    vecmath::fill(w, 0.0);
    vecmath::fill(lambda, 0.0);
    vecmath::fill(u, 0.0);
    vecmath::fill(v, 0.0);
    vecmath::fill(eta, 0.0);
    vecmath::fill(d, 1.0);
}
