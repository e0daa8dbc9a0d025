// The nonnegative cone's bare calls for C: akm_ before the name, the refusal's number returned, 0 for none, and an answer's values written
// to numbers that the caller lends. A lent slice is a pointer and a length. Of our own; nothing is ported. Written by tools/surface.
ghost use Rattle.std.specs.Prelude.{◌≡◌, [], ◌∷◌};
ghost use Rattle.answers.specs.Outcome.{◌⨾◌};
ghost use Rattle.nn_units.specs.Units.{nn_margins, nn_scaled_unit_shift, nn_unit_initialization};
ghost use Rattle.nn_identity.specs.Identity.{nn_set_identity_scaling};
ghost use Rattle.nn_scaling.specs.Scaling.{nn_update_scaling};
ghost use Rattle.nn_blocks.specs.Block.{nn_get_hs};
ghost use Rattle.nn_mul_hs.specs.Block.{nn_mul_hs};
ghost use Rattle.nn_jordan.specs.Jordan.{nn_affine_ds, nn_circ_op};
ghost use Rattle.nn_combined.specs.Combined.{nn_combined_ds_shift};
ghost use Rattle.nn_offset.specs.Offset.{nn_ds_from_dz_offset};
ghost use Rattle.nn_step.specs.Step.{nn_step_length, nn_step};
ghost use Rattle.nn_products.specs.Products.{nn_mul_w, nn_mul_winv};
ghost use Rattle.nn_inverse.specs.Inverse.{nn_inv_circ_op, nn_lambda_inv_circ_op};
ghost use Rattle.standing.specs.Standing.{nn_stands};
ghost use Rattle.codes.specs.Code.{real, whole, export, values_of, export_of};

#[unsafe(no_mangle)]
pub extern "C" fn akm_nn_margins(z: &[f64], alpha: &mut f64, beta: &mut f64) -> u8
    ensures { export result (real alpha.new ∷ real beta.new ∷ []) tt
        ≡ export_of values_of (real alpha.old ∷ real beta.old ∷ []) (nn_margins z.now) }
{
    codes::margins(nn_units::nn_margins(z), alpha, beta)
}

#[unsafe(no_mangle)]
pub extern "C" fn akm_nn_scaled_unit_shift(z: &mut [f64], alpha: f64) -> u8
    ensures { export result [] (z.new ⨾ tt) ≡ export_of values_of [] (nn_scaled_unit_shift z.old alpha) }
{
    codes::answer(nn_units::nn_scaled_unit_shift(z, alpha))
}

#[unsafe(no_mangle)]
pub extern "C" fn akm_nn_unit_initialization(z: &mut [f64], s: &mut [f64]) -> u8
    ensures { export result [] (z.new ⨾ s.new ⨾ tt) ≡ export_of values_of [] (nn_unit_initialization z.old s.old) }
{
    codes::answer(nn_units::nn_unit_initialization(z, s))
}

#[unsafe(no_mangle)]
pub extern "C" fn akm_nn_set_identity_scaling(w: &mut [f64]) -> u8
    ensures { export result [] (w.new ⨾ tt) ≡ export_of values_of [] (nn_set_identity_scaling w.old) }
{
    codes::answer(nn_identity::nn_set_identity_scaling(w))
}

#[unsafe(no_mangle)]
pub extern "C" fn akm_nn_update_scaling(
    s: &[f64],
    z: &[f64],
    w: &mut [f64],
    lambda: &mut [f64],
    truth: &mut u8,
) -> u8
    ensures { export result (whole truth.new ∷ []) (w.new ⨾ lambda.new ⨾ tt)
        ≡ export_of values_of (whole truth.old ∷ []) (nn_update_scaling s.now z.now w.old lambda.old) }
{
    codes::scaling(nn_scaling::nn_update_scaling(s, z, w, lambda), truth)
}

#[unsafe(no_mangle)]
pub extern "C" fn akm_nn_get_hs(hs: &mut [f64], w: &[f64]) -> u8
    ensures { export result [] (hs.new ⨾ tt) ≡ export_of values_of [] (nn_get_hs hs.old w.now) }
{
    codes::answer(nn_blocks::nn_get_hs(hs, w))
}

#[unsafe(no_mangle)]
pub extern "C" fn akm_nn_mul_hs(y: &mut [f64], x: &[f64], w: &[f64]) -> u8
    ensures { export result [] (y.new ⨾ tt) ≡ export_of values_of [] (nn_mul_hs y.old x.now w.now) }
{
    codes::answer(nn_mul_hs::nn_mul_hs(y, x, w))
}

#[unsafe(no_mangle)]
pub extern "C" fn akm_nn_affine_ds(ds: &mut [f64], lambda: &[f64]) -> u8
    ensures { export result [] (ds.new ⨾ tt) ≡ export_of values_of [] (nn_affine_ds ds.old lambda.now) }
{
    codes::answer(nn_jordan::nn_affine_ds(ds, lambda))
}

#[unsafe(no_mangle)]
pub extern "C" fn akm_nn_combined_ds_shift(
    shift: &mut [f64],
    step_z: &mut [f64],
    step_s: &mut [f64],
    sigma_mu: f64,
    w: &[f64],
) -> u8
    ensures { export result [] (shift.new ⨾ step_z.new ⨾ step_s.new ⨾ tt)
        ≡ export_of values_of [] (nn_combined_ds_shift shift.old step_z.old step_s.old sigma_mu w.now) }
{
    codes::answer(nn_combined::nn_combined_ds_shift(shift, step_z, step_s, sigma_mu, w))
}

#[unsafe(no_mangle)]
pub extern "C" fn akm_nn_ds_from_dz_offset(out: &mut [f64], ds: &[f64], z: &[f64]) -> u8
    ensures { export result [] (out.new ⨾ tt) ≡ export_of values_of [] (nn_ds_from_dz_offset out.old ds.now z.now) }
{
    codes::answer(nn_offset::nn_ds_from_dz_offset(out, ds, z))
}

#[unsafe(no_mangle)]
pub extern "C" fn akm_nn_step_length(
    dz: &[f64],
    ds: &[f64],
    z: &[f64],
    s: &[f64],
    limit: f64,
    step_z: &mut f64,
    step_s: &mut f64,
) -> u8
    ensures { export result (real step_z.new ∷ real step_s.new ∷ []) tt
        ≡ export_of values_of (real step_z.old ∷ real step_s.old ∷ []) (nn_step_length dz.now ds.now z.now s.now limit) }
{
    codes::steps(nn_step::nn_step_length(dz, ds, z, s, limit), step_z, step_s)
}

#[unsafe(no_mangle)]
pub extern "C" fn akm_nn_step(x: &[f64], y: &[f64], limit: f64, step: &mut f64) -> u8
    ensures { export result (real step.new ∷ []) tt ≡ export_of values_of (real step.old ∷ []) (nn_step x.now y.now limit) }
{
    codes::number(nn_step::nn_step(x, y, limit), step)
}

#[unsafe(no_mangle)]
pub extern "C" fn akm_nn_mul_w(y: &mut [f64], x: &[f64], alpha: f64, beta: f64, w: &[f64]) -> u8
    ensures { export result [] (y.new ⨾ tt) ≡ export_of values_of [] (nn_mul_w y.old x.now alpha beta w.now) }
{
    codes::answer(nn_products::nn_mul_w(y, x, alpha, beta, w))
}

#[unsafe(no_mangle)]
pub extern "C" fn akm_nn_mul_winv(y: &mut [f64], x: &[f64], alpha: f64, beta: f64, w: &[f64]) -> u8
    ensures { export result [] (y.new ⨾ tt) ≡ export_of values_of [] (nn_mul_winv y.old x.now alpha beta w.now) }
{
    codes::answer(nn_products::nn_mul_winv(y, x, alpha, beta, w))
}

#[unsafe(no_mangle)]
pub extern "C" fn akm_nn_circ_op(x: &mut [f64], y: &[f64], z: &[f64]) -> u8
    ensures { export result [] (x.new ⨾ tt) ≡ export_of values_of [] (nn_circ_op x.old y.now z.now) }
{
    codes::answer(nn_jordan::nn_circ_op(x, y, z))
}

#[unsafe(no_mangle)]
pub extern "C" fn akm_nn_inv_circ_op(x: &mut [f64], y: &[f64], z: &[f64]) -> u8
    ensures { export result [] (x.new ⨾ tt) ≡ export_of values_of [] (nn_inv_circ_op x.old y.now z.now) }
{
    codes::answer(nn_inverse::nn_inv_circ_op(x, y, z))
}

#[unsafe(no_mangle)]
pub extern "C" fn akm_nn_lambda_inv_circ_op(x: &mut [f64], z: &[f64], lambda: &[f64]) -> u8
    ensures { export result [] (x.new ⨾ tt) ≡ export_of values_of [] (nn_lambda_inv_circ_op x.old z.now lambda.now) }
{
    codes::answer(nn_inverse::nn_lambda_inv_circ_op(x, z, lambda))
}

#[unsafe(no_mangle)]
pub extern "C" fn akm_nn_standing(z: &[f64], standing: &mut u8) -> u8
    ensures { export result (whole standing.new ∷ []) tt ≡ export_of values_of (whole standing.old ∷ []) (nn_stands z.now) }
{
    codes::stands(standing::nn_standing(z), standing)
}
