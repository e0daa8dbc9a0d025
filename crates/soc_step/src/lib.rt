// The second-order cone's step (source document 000, lines 289 to 302 and 421 to 495), mended along a direction of residual 0 (document 02,
// item 3): the bare calls, and behind them the kernel.
#![tactic(auto, using(answers::proofs::Laws::outcomes, answers::proofs::Laws::fits), unfolding(crate::specs::Step::forward, crate::specs::Step::turn, crate::specs::Step::lowered, crate::specs::Step::roots, crate::specs::Step::zero_curvature, crate::specs::Step::branches, crate::specs::Step::soc_step_by))]

ghost use Rattle.std.specs.Prelude.{◌≡◌, [], ◌∷◌, length};
ghost use Rattle.extrema.specs.Extrema.{least_of};
ghost use Rattle.answers.specs.Refusal.{Fit};
ghost use Rattle.answers.specs.Outcome.{tells, of_number, of_steps};
ghost use Rattle.soc_step.specs.Step.{forward, turn, lowered, roots, branches, step_along, soc_step, soc_step_length};

use answers::{Refusal, StepPair};

// A root below 0 is none.
fn forward(r: f64) -> f64
    ensures { result ≡ forward r }
{
    if r < 0.0 { 1.0 / 0.0 } else { r }
}

// Of the two roots' common part the sum that does not cancel.
fn turn(b: f64, d: f64) -> f64
    ensures { result ≡ turn b d }
{
    let root = root::sqrt(d);
    if b >= 0.0 { -b - root } else { -b + root }
}

// By the first entries alone.
fn lowered(x0: f64, y0: f64, limit: f64) -> f64
    ensures { result ≡ lowered least_of x0 y0 limit }
{
    if (x0 >= 0.0) & (y0 < 0.0) {
        extrema::least(limit, -x0 / y0)
    } else {
        limit
    }
}

fn roots(a: f64, b: f64, c: f64, d: f64, limit: f64) -> f64
    ensures { result ≡ roots least_of a b c d limit }
{
    let t = turn(b, d);
    let r1 = forward(2.0 * c / t);
    let r2 = forward(t / (2.0 * a));
    extrema::least(limit, extrema::least(r1, r2))
}

// With a = 0 one root is left, -c/b. The source gives the limit, since b is not below 0 where the direction is in the cone; but it need not be.
fn branches(a: f64, b: f64, c: f64, d: f64, limit: f64) -> f64
    ensures { result ≡ branches least_of a b c d limit }
{
    if (a > 0.0) & (b > 0.0) | (d < 0.0) {
        return limit;
    }
    if a == 0.0 {
        return if b < 0.0 {
            extrema::least(limit, -c / b)
        } else {
            limit
        };
    }
    if c == 0.0 {
        return if a >= 0.0 { limit } else { 0.0 };
    }
    roots(a, b, c, d, limit)
}

pub fn step(x: &[f64], y: &[f64], limit: f64) -> f64
    requires { Fit 2 (length x.now) (length y.now ∷ []) }
    ensures { result ≡ step_along x.now y.now limit }
{
    let a = soc_residual::residual(y);
    let b = 2.0 * (x[0] * y[0] - tails::dot(x, y));
    let c = extrema::greatest(0.0, soc_residual::residual(x));
    let d = b * b - 4.0 * a * c;
    branches(a, b, c, d, lowered(x[0], y[0], limit))
}

pub fn step_length(dz: &[f64], ds: &[f64], z: &[f64], s: &[f64], limit: f64) -> StepPair
    requires { Fit 2 (length dz.now) (length ds.now ∷ length z.now ∷ length s.now ∷ []) }
    ensures z_value { result.z ≡ step_along z.now dz.now limit }
    ensures s_value { result.s ≡ step_along s.now ds.now limit }
{
    StepPair {
        z: step(z, dz, limit),
        s: step(s, ds, limit),
    }
}

// The step of one side: of x along y, of at most limit.
pub fn soc_step(x: &[f64], y: &[f64], limit: f64) -> Result<f64, Refusal>
    ensures { tells (of_number result) tt ≡ soc_step x.now y.now limit }
{
    answers::check_step(2, x.len(), y.len() == x.len(), limit)?;
    Ok(step(x, y, limit))
}

// The pair of steps: z along dz, and s along ds.
pub fn soc_step_length(
    dz: &[f64],
    ds: &[f64],
    z: &[f64],
    s: &[f64],
    limit: f64,
) -> Result<StepPair, Refusal>
    ensures { tells (of_steps result) tt ≡ soc_step_length dz.now ds.now z.now s.now limit }
{
    answers::check_step(
        2,
        dz.len(),
        (ds.len() == dz.len()) & (z.len() == dz.len()) & (s.len() == dz.len()),
        limit,
    )?;
    Ok(step_length(dz, ds, z, s, limit))
}
