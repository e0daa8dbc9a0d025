// The nonnegative cone (source document 001, nonnegativecone.rs): step_length, and the step of one side. The bare calls, and behind
// each the kernel that it calls once nothing is refused.
#![tactic(auto, using(answers::proofs::Laws::outcomes, answers::proofs::Laws::fits, vecmath::proofs::Loops::loops), unfolding(crate::specs::Step::nonneg_step))]

ghost use Rattle.std.specs.Prelude.{◌≡◌, [], ◌∷◌, length};
ghost use Rattle.extrema.specs.Extrema.{least_of};
ghost use Rattle.answers.specs.Refusal.{Fit};
ghost use Rattle.answers.specs.Outcome.{lengths, tells, of_number, of_steps};
ghost use Rattle.nn_step.specs.Step.{shorter, nonneg_step, nonneg_steps, nn_step, nn_step_length};

use answers::{Refusal, StepPair};

// The step that one entry x leaves along y. Most entries leave alpha, and a product tells that without a division, whatever the sign of y.
#[tactic(auto, using(crate::proofs::Laws::stays, extrema::proofs::Laws::least_self))]
fn shorter(alpha: f64, x: f64, y: f64) -> f64
    ensures { result ≡ shorter least_of x y alpha }
{
    if x > -(alpha * y) {
        return alpha;
    }
    let ratio = if y < 0.0 { -x / y } else { alpha };
    extrema::least(alpha, ratio)
}

pub fn step(x: &[f64], y: &[f64], limit: f64) -> f64
    requires { Fit 0 (length x.now) (length y.now ∷ []) }
    ensures { result ≡ nonneg_step least_of x.now y.now limit }
{
    let mut alpha = limit;
    for (i, &yi) in y.iter().enumerate() {
        alpha = shorter(alpha, x[i], yi);
    }
    alpha
}

// The step of the point x along the direction y, of at most limit.
pub fn nn_step(x: &[f64], y: &[f64], limit: f64) -> Result<f64, Refusal>
    ensures { tells (of_number result) tt ≡ nn_step x.now y.now limit }
{
    answers::check_step(0, x.len(), y.len() == x.len(), limit)?;
    Ok(step(x, y, limit))
}

pub fn step_length(dz: &[f64], ds: &[f64], z: &[f64], s: &[f64], limit: f64) -> StepPair
    requires { Fit 0 (length dz.now) (length ds.now ∷ length z.now ∷ length s.now ∷ []) }
    ensures { lengths result.z result.s
        ≡ nonneg_steps least_of dz.now ds.now z.now s.now limit }
{
    let mut alpha_z = limit;
    let mut alpha_s = limit;
    for (i, &dzi) in dz.iter().enumerate() {
        alpha_z = shorter(alpha_z, z[i], dzi);
        alpha_s = shorter(alpha_s, s[i], ds[i]);
    }
    StepPair {
        z: alpha_z,
        s: alpha_s,
    }
}

// The two step lengths, z side and s side: of z along dz, and of s along ds.
pub fn nn_step_length(
    dz: &[f64],
    ds: &[f64],
    z: &[f64],
    s: &[f64],
    limit: f64,
) -> Result<StepPair, Refusal>
    ensures { tells (of_steps result) tt
        ≡ nn_step_length dz.now ds.now z.now s.now limit }
{
    answers::check_step(
        0,
        dz.len(),
        (ds.len() == dz.len()) & (z.len() == dz.len()) & (s.len() == dz.len()),
        limit,
    )?;
    Ok(step_length(dz, ds, z, s, limit))
}
