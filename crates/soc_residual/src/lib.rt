// The second-order cone's residuals and root scale (source document 000, lines 388 to 417): the bare calls, and behind each the kernel
// that it calls once nothing is refused.
#![tactic(auto, using(answers::proofs::Laws::outcomes, answers::proofs::Laws::fits), unfolding(crate::specs::Residual::residual, crate::specs::Residual::residual_shifted, crate::specs::Residual::root_scale))]

ghost use Rattle.std.specs.Prelude.{◌≡◌, [], ◌∷◌, length};
ghost use Rattle.answers.specs.Refusal.{Fit};
ghost use Rattle.answers.specs.Outcome.{tells, of_number};
ghost use Rattle.soc_residual.specs.Residual.{residual_of, residual, residual_shifted, root_scale_of, root_scale, soc_residual, soc_residual_shifted, sqrt_soc_residual};

use answers::Refusal;

// Of the first entry and the norm of the rest.
pub fn residual_of(x0: f64, x1norm: f64) -> f64
    ensures { result ≡ residual_of x0 x1norm }
{
    (x0 - x1norm) * (x0 + x1norm)
}

pub fn residual(z: &[f64]) -> f64
    requires { Fit 2 (length z.now) [] }
    ensures { result ≡ residual z.now }
{
    let z1norm = tails::norm(z);
    residual_of(z[0], z1norm)
}

// At z + alpha·dz, which is not stored.
pub fn residual_shifted(z: &[f64], dz: &[f64], alpha: f64) -> f64
    requires { Fit 2 (length z.now) (length dz.now ∷ []) }
    ensures { result ≡ residual_shifted z.now dz.now alpha }
{
    let x0 = z[0] + alpha * dz[0];
    residual_of(x0, tails::norm_shifted(z, dz, alpha))
}

// The root of a residual where that is above 0, else 0.
pub fn root_scale_of(res: f64) -> f64
    ensures { result ≡ root_scale_of res }
{
    if res > 0.0 { root::sqrt(res) } else { 0.0 }
}

pub fn sqrt_residual(z: &[f64]) -> f64
    requires { Fit 2 (length z.now) [] }
    ensures { result ≡ root_scale z.now }
{
    root_scale_of(residual(z))
}

pub fn soc_residual(z: &[f64]) -> Result<f64, Refusal>
    ensures { tells (of_number result) tt ≡ soc_residual z.now }
{
    answers::check(2, z.len(), true)?;
    Ok(residual(z))
}

pub fn soc_residual_shifted(z: &[f64], dz: &[f64], alpha: f64) -> Result<f64, Refusal>
    ensures { tells (of_number result) tt ≡ soc_residual_shifted z.now dz.now alpha }
{
    answers::check(2, z.len(), dz.len() == z.len())?;
    Ok(residual_shifted(z, dz, alpha))
}

pub fn sqrt_soc_residual(z: &[f64]) -> Result<f64, Refusal>
    ensures { tells (of_number result) tt ≡ sqrt_soc_residual z.now }
{
    answers::check(2, z.len(), true)?;
    Ok(sqrt_residual(z))
}
