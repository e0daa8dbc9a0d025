// The second-order cone's bare calls for C: akm_ before the name, the refusal's number returned, 0 for none, and an answer's values written
// to numbers that the caller lends. A lent slice is a pointer and a length. Of our own; nothing is ported. Written by tools/surface.
ghost use Rattle.std.specs.Prelude.{◌≡◌, [], ◌∷◌};
ghost use Rattle.answers.specs.Outcome.{of_square, as_squared, ◌⨾◌};
ghost use Rattle.soc_units.specs.Units.{soc_margins, soc_scaled_unit_shift, soc_unit_initialization};
ghost use Rattle.soc_identity.specs.Identity.{soc_set_identity_scaling};
ghost use Rattle.soc_scaling.specs.Scaling.{soc_update_scaling};
ghost use Rattle.soc_blocks.specs.Block.{soc_get_hs};
ghost use Rattle.soc_square.specs.Square.{soc_square_hs};
ghost use Rattle.soc_mul_hs.specs.Block.{soc_mul_hs};
ghost use Rattle.soc_jordan.specs.Jordan.{soc_affine_ds, soc_circ_op};
ghost use Rattle.soc_combined.specs.Combined.{soc_combined_ds_shift};
ghost use Rattle.soc_offset.specs.Offset.{soc_ds_from_dz_offset};
ghost use Rattle.soc_step.specs.Step.{soc_step_length, soc_step};
ghost use Rattle.soc_products.specs.Product.{soc_mul_w, soc_mul_winv};
ghost use Rattle.soc_inverse.specs.Inverse.{soc_inv_circ_op, soc_lambda_inv_circ_op};
ghost use Rattle.standing.specs.Standing.{soc_stands};
ghost use Rattle.soc_residual.specs.Residual.{soc_residual, soc_residual_shifted, sqrt_soc_residual};
ghost use Rattle.codes.specs.Code.{real, whole, export, values_of, export_of};

use answers::Square;

#[unsafe(no_mangle)]
pub extern "C" fn akm_soc_margins(z: &[f64], alpha: &mut f64, beta: &mut f64) -> u8
    ensures { export result (real alpha.new ∷ real beta.new ∷ []) tt
        ≡ export_of values_of (real alpha.old ∷ real beta.old ∷ []) (soc_margins z.now) }
{
    codes::margins(soc_units::soc_margins(z), alpha, beta)
}

#[unsafe(no_mangle)]
pub extern "C" fn akm_soc_scaled_unit_shift(z: &mut [f64], alpha: f64) -> u8
    ensures { export result [] (z.new ⨾ tt) ≡ export_of values_of [] (soc_scaled_unit_shift z.old alpha) }
{
    codes::answer(soc_units::soc_scaled_unit_shift(z, alpha))
}

#[unsafe(no_mangle)]
pub extern "C" fn akm_soc_unit_initialization(z: &mut [f64], s: &mut [f64]) -> u8
    ensures { export result [] (z.new ⨾ s.new ⨾ tt) ≡ export_of values_of [] (soc_unit_initialization z.old s.old) }
{
    codes::answer(soc_units::soc_unit_initialization(z, s))
}

#[unsafe(no_mangle)]
pub extern "C" fn akm_soc_set_identity_scaling(
    w: &mut [f64],
    u: &mut [f64],
    v: &mut [f64],
    eta: &mut f64,
    d: &mut f64,
) -> u8
    ensures { export result [] (w.new ⨾ u.new ⨾ v.new ⨾ eta.new ⨾ d.new ⨾ tt)
        ≡ export_of values_of [] (soc_set_identity_scaling w.old u.old v.old eta.old d.old) }
{
    codes::answer(soc_identity::soc_set_identity_scaling(w, u, v, eta, d))
}

#[unsafe(no_mangle)]
pub extern "C" fn akm_soc_update_scaling(
    s: &[f64],
    z: &[f64],
    w: &mut [f64],
    lambda: &mut [f64],
    u: &mut [f64],
    v: &mut [f64],
    eta: &mut f64,
    d: &mut f64,
    truth: &mut u8,
) -> u8
    ensures { export result (whole truth.new ∷ []) (w.new ⨾ lambda.new ⨾ u.new ⨾ v.new ⨾ eta.new ⨾ d.new ⨾ tt)
        ≡ export_of values_of (whole truth.old ∷ []) (soc_update_scaling s.now z.now w.old lambda.old u.old v.old eta.old d.old) }
{
    codes::scaling(
        soc_scaling::soc_update_scaling(s, z, w, lambda, u, v, eta, d),
        truth,
    )
}

#[unsafe(no_mangle)]
pub extern "C" fn akm_soc_get_hs(hs: &mut [f64], w: &[f64], eta: &f64, d: &f64) -> u8
    ensures { export result [] (hs.new ⨾ tt) ≡ export_of values_of [] (soc_get_hs hs.old w.now eta.now d.now) }
{
    codes::answer(soc_blocks::soc_get_hs(hs, w, eta, d))
}

#[unsafe(no_mangle)]
pub extern "C" fn akm_soc_square_hs(w: &[f64], eta: &f64) -> Square
    ensures { of_square result ≡ as_squared (soc_square_hs w.now eta.now).ruling }
{
    soc_square::soc_square_hs(w, eta)
}

#[unsafe(no_mangle)]
pub extern "C" fn akm_soc_mul_hs(y: &mut [f64], x: &[f64], w: &[f64], eta: &f64) -> u8
    ensures { export result [] (y.new ⨾ tt) ≡ export_of values_of [] (soc_mul_hs y.old x.now w.now eta.now) }
{
    codes::answer(soc_mul_hs::soc_mul_hs(y, x, w, eta))
}

#[unsafe(no_mangle)]
pub extern "C" fn akm_soc_affine_ds(ds: &mut [f64], lambda: &[f64]) -> u8
    ensures { export result [] (ds.new ⨾ tt) ≡ export_of values_of [] (soc_affine_ds ds.old lambda.now) }
{
    codes::answer(soc_jordan::soc_affine_ds(ds, lambda))
}

#[unsafe(no_mangle)]
pub extern "C" fn akm_soc_combined_ds_shift(
    shift: &mut [f64],
    step_z: &mut [f64],
    step_s: &mut [f64],
    sigma_mu: f64,
    w: &[f64],
    eta: &f64,
) -> u8
    ensures { export result [] (shift.new ⨾ step_z.new ⨾ step_s.new ⨾ tt)
        ≡ export_of values_of [] (soc_combined_ds_shift shift.old step_z.old step_s.old sigma_mu w.now eta.now) }
{
    codes::answer(soc_combined::soc_combined_ds_shift(shift, step_z, step_s, sigma_mu, w, eta))
}

#[unsafe(no_mangle)]
pub extern "C" fn akm_soc_ds_from_dz_offset(
    out: &mut [f64],
    ds: &[f64],
    z: &[f64],
    w: &[f64],
    lambda: &[f64],
    eta: &f64,
) -> u8
    ensures { export result [] (out.new ⨾ tt)
        ≡ export_of values_of [] (soc_ds_from_dz_offset out.old ds.now z.now w.now lambda.now eta.now) }
{
    codes::answer(soc_offset::soc_ds_from_dz_offset(out, ds, z, w, lambda, eta))
}

#[unsafe(no_mangle)]
pub extern "C" fn akm_soc_step_length(
    dz: &[f64],
    ds: &[f64],
    z: &[f64],
    s: &[f64],
    limit: f64,
    step_z: &mut f64,
    step_s: &mut f64,
) -> u8
    ensures { export result (real step_z.new ∷ real step_s.new ∷ []) tt
        ≡ export_of values_of (real step_z.old ∷ real step_s.old ∷ []) (soc_step_length dz.now ds.now z.now s.now limit) }
{
    codes::steps(
        soc_step::soc_step_length(dz, ds, z, s, limit),
        step_z,
        step_s,
    )
}

#[unsafe(no_mangle)]
pub extern "C" fn akm_soc_step(x: &[f64], y: &[f64], limit: f64, step: &mut f64) -> u8
    ensures { export result (real step.new ∷ []) tt ≡ export_of values_of (real step.old ∷ []) (soc_step x.now y.now limit) }
{
    codes::number(soc_step::soc_step(x, y, limit), step)
}

#[unsafe(no_mangle)]
pub extern "C" fn akm_soc_mul_w(
    y: &mut [f64],
    x: &[f64],
    alpha: f64,
    beta: f64,
    w: &[f64],
    eta: &f64,
) -> u8
    ensures { export result [] (y.new ⨾ tt) ≡ export_of values_of [] (soc_mul_w y.old x.now alpha beta w.now eta.now) }
{
    codes::answer(soc_products::soc_mul_w(y, x, alpha, beta, w, eta))
}

#[unsafe(no_mangle)]
pub extern "C" fn akm_soc_mul_winv(
    y: &mut [f64],
    x: &[f64],
    alpha: f64,
    beta: f64,
    w: &[f64],
    eta: &f64,
) -> u8
    ensures { export result [] (y.new ⨾ tt) ≡ export_of values_of [] (soc_mul_winv y.old x.now alpha beta w.now eta.now) }
{
    codes::answer(soc_products::soc_mul_winv(y, x, alpha, beta, w, eta))
}

#[unsafe(no_mangle)]
pub extern "C" fn akm_soc_circ_op(x: &mut [f64], y: &[f64], z: &[f64]) -> u8
    ensures { export result [] (x.new ⨾ tt) ≡ export_of values_of [] (soc_circ_op x.old y.now z.now) }
{
    codes::answer(soc_jordan::soc_circ_op(x, y, z))
}

#[unsafe(no_mangle)]
pub extern "C" fn akm_soc_inv_circ_op(x: &mut [f64], y: &[f64], z: &[f64]) -> u8
    ensures { export result [] (x.new ⨾ tt) ≡ export_of values_of [] (soc_inv_circ_op x.old y.now z.now) }
{
    codes::answer(soc_inverse::soc_inv_circ_op(x, y, z))
}

#[unsafe(no_mangle)]
pub extern "C" fn akm_soc_lambda_inv_circ_op(x: &mut [f64], z: &[f64], lambda: &[f64]) -> u8
    ensures { export result [] (x.new ⨾ tt) ≡ export_of values_of [] (soc_lambda_inv_circ_op x.old z.now lambda.now) }
{
    codes::answer(soc_inverse::soc_lambda_inv_circ_op(x, z, lambda))
}

#[unsafe(no_mangle)]
pub extern "C" fn akm_soc_standing(z: &[f64], standing: &mut u8) -> u8
    ensures { export result (whole standing.new ∷ []) tt ≡ export_of values_of (whole standing.old ∷ []) (soc_stands z.now) }
{
    codes::stands(standing::soc_standing(z), standing)
}

#[unsafe(no_mangle)]
pub extern "C" fn akm_soc_residual(z: &[f64], value: &mut f64) -> u8
    ensures { export result (real value.new ∷ []) tt ≡ export_of values_of (real value.old ∷ []) (soc_residual z.now) }
{
    codes::number(soc_residual::soc_residual(z), value)
}

#[unsafe(no_mangle)]
pub extern "C" fn akm_soc_residual_shifted(z: &[f64], dz: &[f64], alpha: f64, value: &mut f64) -> u8
    ensures { export result (real value.new ∷ []) tt
        ≡ export_of values_of (real value.old ∷ []) (soc_residual_shifted z.now dz.now alpha) }
{
    codes::number(soc_residual::soc_residual_shifted(z, dz, alpha), value)
}

#[unsafe(no_mangle)]
pub extern "C" fn akm_sqrt_soc_residual(z: &[f64], value: &mut f64) -> u8
    ensures { export result (real value.new ∷ []) tt ≡ export_of values_of (real value.old ∷ []) (sqrt_soc_residual z.now) }
{
    codes::number(soc_residual::sqrt_soc_residual(z), value)
}
