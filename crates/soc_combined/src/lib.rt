// The shift in the combined step, of the second-order cone (source document 002, lines 53 to 84): the bare call, and behind it the kernel
// that it calls once nothing is refused. step_z and step_s are overwritten, and shift is the workspace.
#![tactic(auto, using(answers::proofs::Laws::outcomes, answers::proofs::Laws::fits), unfolding(crate::specs::Combined::combined_shift))]

ghost use Rattle.std.specs.Prelude.{◌≡◌, [], ◌∷◌, length};
ghost use Rattle.answers.specs.Refusal.{Fit};
ghost use Rattle.answers.specs.Outcome.{tells, of_answer, ◌⨾◌};
ghost use Rattle.soc_combined.specs.Combined.{combined_shift, soc_combined_ds_shift};

use answers::Refusal;

pub fn combined_ds_shift(
    shift: &mut [f64],
    step_z: &mut [f64],
    step_s: &mut [f64],
    sigma_mu: f64,
    w: &[f64],
    eta: f64,
)
    requires { Fit 2 (length shift.old) (length step_z.old ∷ length step_s.old ∷ length w.now ∷ []) }
    ensures { shift.new ⨾ step_z.new ⨾ step_s.new ⨾ tt
        ≡ combined_shift step_z.old step_s.old sigma_mu w.now eta }
{
    // Δz ← WΔz
    vecmath::copy_from(shift, step_z);
    soc_products::mul_w(step_z, shift, 1.0, 0.0, w, eta);
    // Δs ← W⁻¹Δs
    vecmath::copy_from(shift, step_s);
    soc_products::mul_winv(step_s, shift, 1.0, 0.0, w, eta);
    // shift = W⁻¹Δs ∘ WΔz − σμ·e
    soc_jordan::circ_op(shift, step_s, step_z);
    soc_units::scaled_unit_shift(shift, -sigma_mu);
}

pub fn soc_combined_ds_shift(
    shift: &mut [f64],
    step_z: &mut [f64],
    step_s: &mut [f64],
    sigma_mu: f64,
    w: &[f64],
    eta: &f64,
) -> Result<(), Refusal>
    ensures { tells (of_answer result) (shift.new ⨾ step_z.new ⨾ step_s.new ⨾ tt)
        ≡ soc_combined_ds_shift shift.old step_z.old step_s.old sigma_mu w.now
        eta.now }
{
    let same = (step_z.len() == shift.len())
        & (step_s.len() == shift.len())
        & (w.len() == shift.len());
    answers::check(2, shift.len(), same)?;
    combined_ds_shift(shift, step_z, step_s, sigma_mu, w, *eta);
    Ok(())
}
