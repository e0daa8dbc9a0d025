// The library for C: every bare call of both cones (soc.rt, nn.rt), every call on a list of cones (list.rt), a fresh state, and the three
// operations on numbers. include/akmuzrel.h declares them. Of our own; nothing is ported.
#![tactic(auto)]

mod list;
mod nn;
mod soc;

ghost use Rattle.std.specs.Prelude.{◌≡◌};
ghost use Rattle.extrema.specs.Extrema.{least_of, greatest_of};
ghost use Rattle.root.specs.Root.{root};
ghost use Rattle.answers.specs.Outcome.{◌⨾◌};
ghost use Rattle.fresh.specs.State.{fresh_state};

#[unsafe(no_mangle)]
pub extern "C" fn akm_sqrt(x: f64) -> f64
    ensures { result ≡ root x }
{
    root::sqrt(x)
}

#[unsafe(no_mangle)]
pub extern "C" fn akm_least(a: f64, b: f64) -> f64
    ensures { result ≡ least_of a b }
{
    extrema::least(a, b)
}

#[unsafe(no_mangle)]
pub extern "C" fn akm_greatest(a: f64, b: f64) -> f64
    ensures { result ≡ greatest_of a b }
{
    extrema::greatest(a, b)
}

#[unsafe(no_mangle)]
pub extern "C" fn akm_fresh_state(
    w: &mut [f64],
    lambda: &mut [f64],
    u: &mut [f64],
    v: &mut [f64],
    eta: &mut [f64],
    d: &mut [f64],
)
    ensures { w.new ⨾ lambda.new ⨾ u.new ⨾ v.new ⨾ eta.new ⨾ d.new ⨾ tt
        ≡ fresh_state w.old lambda.old u.old v.old eta.old d.old }
{
    fresh::fresh_state(w, lambda, u, v, eta, d);
}
