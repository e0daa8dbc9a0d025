// The calls on one cone of a list for C: akm_list_ before the name, the row of records and the cone's index before the rest; and those on
// the whole list. A record is three numbers, the cone's start, its kind (0 nonnegative, 1 second-order) and its dimension. Of our own;
// nothing is ported. Written by tools/surface.
ghost use Rattle.std.specs.Prelude.{◌≡◌, [], ◌∷◌};
ghost use Rattle.answers.specs.Outcome.{of_square, as_squared, ◌⨾◌};
ghost use Rattle.conelist.specs.Layout.{place_of};
ghost use Rattle.conecalls.specs.Deed.{comes_at};
ghost use Rattle.records.specs.Record.{cones};
ghost use Rattle.list_margins.specs.Margins.{margins_deed};
ghost use Rattle.list_shifts.specs.Shift.{scaled_unit_shift_deed, combined_ds_shift_deed, ds_from_dz_offset_deed};
ghost use Rattle.list_units.specs.Units.{unit_initialization_deed};
ghost use Rattle.list_identity.specs.Identity.{set_identity_scaling_deed};
ghost use Rattle.list_scaling.specs.Scaling.{update_scaling_deed};
ghost use Rattle.list_blocks.specs.Block.{get_hs_deed};
ghost use Rattle.list_square.specs.Square.{square_hs_deed};
ghost use Rattle.list_mul_hs.specs.Block.{mul_hs_deed};
ghost use Rattle.list_jordan.specs.Jordan.{affine_ds_deed, circ_op_deed, inv_circ_op_deed, lambda_inv_circ_op_deed};
ghost use Rattle.list_step.specs.Step.{step_length_deed};
ghost use Rattle.list_products.specs.Product.{mul_w_deed, mul_winv_deed};
ghost use Rattle.list_standing.specs.Standing.{standing_deed};
ghost use Rattle.whole_scaling.specs.List.{list_update_scaling};
ghost use Rattle.whole_step.specs.List.{list_step_length};
ghost use Rattle.codes.specs.Code.{real, whole, export, values_of, scaled_values, export_of};

use answers::Square;

#[unsafe(no_mangle)]
pub extern "C" fn akm_list_margins(
    list: &[[usize; 3]],
    k: usize,
    z: &[f64],
    alpha: &mut f64,
    beta: &mut f64,
) -> u8
    ensures { export result (real alpha.new ∷ real beta.new ∷ []) tt
        ≡ export_of values_of (real alpha.old ∷ real beta.old ∷ []) (comes_at (place_of (cones list.now) k) margins_deed z.now) }
{
    let p = conewalk::place_of(list, k);
    codes::margins(list_margins::margins_at(p, z), alpha, beta)
}

#[unsafe(no_mangle)]
pub extern "C" fn akm_list_scaled_unit_shift(
    list: &[[usize; 3]],
    k: usize,
    z: &mut [f64],
    alpha: f64,
) -> u8
    ensures { export result [] (z.new ⨾ tt)
        ≡ export_of values_of [] (comes_at (place_of (cones list.now) k) (scaled_unit_shift_deed alpha) z.old) }
{
    let p = conewalk::place_of(list, k);
    codes::answer(list_shifts::scaled_unit_shift_at(p, z, alpha))
}

#[unsafe(no_mangle)]
pub extern "C" fn akm_list_unit_initialization(
    list: &[[usize; 3]],
    k: usize,
    z: &mut [f64],
    s: &mut [f64],
) -> u8
    ensures { export result [] (z.new ⨾ s.new ⨾ tt)
        ≡ export_of values_of [] (comes_at (place_of (cones list.now) k) unit_initialization_deed z.old s.old) }
{
    let p = conewalk::place_of(list, k);
    codes::answer(list_units::unit_initialization_at(p, z, s))
}

#[unsafe(no_mangle)]
pub extern "C" fn akm_list_set_identity_scaling(
    list: &[[usize; 3]],
    k: usize,
    w: &mut [f64],
    u: &mut [f64],
    v: &mut [f64],
    eta: &mut [f64],
    d: &mut [f64],
    marks: &mut [u8],
) -> u8
    ensures { export result [] (w.new ⨾ u.new ⨾ v.new ⨾ eta.new ⨾ d.new ⨾ marks.new ⨾ tt)
        ≡ export_of values_of [] (comes_at (place_of (cones list.now) k) set_identity_scaling_deed w.old u.old v.old eta.old d.old marks.old) }
{
    let p = conewalk::place_of(list, k);
    codes::answer(list_identity::set_identity_scaling_at(p, w, u, v, eta, d, marks))
}

#[unsafe(no_mangle)]
pub extern "C" fn akm_list_update_scaling(
    list: &[[usize; 3]],
    k: usize,
    s: &[f64],
    z: &[f64],
    w: &mut [f64],
    lambda: &mut [f64],
    u: &mut [f64],
    v: &mut [f64],
    eta: &mut [f64],
    d: &mut [f64],
    marks: &mut [u8],
    truth: &mut u8,
) -> u8
    ensures { export result (whole truth.new ∷ []) (w.new ⨾ lambda.new ⨾ u.new ⨾ v.new ⨾ eta.new ⨾ d.new ⨾ marks.new ⨾ tt)
        ≡ export_of values_of (whole truth.old ∷ []) (comes_at (place_of (cones list.now) k) update_scaling_deed w.old lambda.old u.old v.old eta.old d.old
        marks.old s.now z.now) }
{
    let p = conewalk::place_of(list, k);
    codes::scaling(
        list_scaling::update_scaling_at(p, s, z, w, lambda, u, v, eta, d, marks),
        truth,
    )
}

#[unsafe(no_mangle)]
pub extern "C" fn akm_list_get_hs(
    list: &[[usize; 3]],
    k: usize,
    hs: &mut [f64],
    w: &[f64],
    eta: &[f64],
    d: &[f64],
    marks: &[u8],
) -> u8
    ensures { export result [] (hs.new ⨾ tt)
        ≡ export_of values_of [] (comes_at (place_of (cones list.now) k) get_hs_deed hs.old w.now eta.now d.now marks.now) }
{
    let p = conewalk::place_of(list, k);
    codes::answer(list_blocks::get_hs_at(p, hs, w, eta, d, marks))
}

#[unsafe(no_mangle)]
pub extern "C" fn akm_list_square_hs(
    list: &[[usize; 3]],
    k: usize,
    w: &[f64],
    eta: &[f64],
    marks: &[u8],
) -> Square
    ensures { of_square result
        ≡ as_squared (comes_at (place_of (cones list.now) k) square_hs_deed w.now eta.now marks.now).ruling }
{
    let p = conewalk::place_of(list, k);
    list_square::square_hs_at(p, w, eta, marks)
}

#[unsafe(no_mangle)]
pub extern "C" fn akm_list_mul_hs(
    list: &[[usize; 3]],
    k: usize,
    y: &mut [f64],
    x: &[f64],
    w: &[f64],
    eta: &[f64],
    marks: &[u8],
) -> u8
    ensures { export result [] (y.new ⨾ tt)
        ≡ export_of values_of [] (comes_at (place_of (cones list.now) k) mul_hs_deed y.old x.now w.now eta.now marks.now) }
{
    let p = conewalk::place_of(list, k);
    codes::answer(list_mul_hs::mul_hs_at(p, y, x, w, eta, marks))
}

#[unsafe(no_mangle)]
pub extern "C" fn akm_list_affine_ds(
    list: &[[usize; 3]],
    k: usize,
    ds: &mut [f64],
    lambda: &[f64],
    marks: &[u8],
) -> u8
    ensures { export result [] (ds.new ⨾ tt)
        ≡ export_of values_of [] (comes_at (place_of (cones list.now) k) affine_ds_deed ds.old lambda.now marks.now) }
{
    let p = conewalk::place_of(list, k);
    codes::answer(list_jordan::affine_ds_at(p, ds, lambda, marks))
}

#[unsafe(no_mangle)]
pub extern "C" fn akm_list_combined_ds_shift(
    list: &[[usize; 3]],
    k: usize,
    shift: &mut [f64],
    step_z: &mut [f64],
    step_s: &mut [f64],
    sigma_mu: f64,
    w: &[f64],
    eta: &[f64],
    marks: &[u8],
) -> u8
    ensures { export result [] (shift.new ⨾ step_z.new ⨾ step_s.new ⨾ tt)
        ≡ export_of values_of [] (comes_at (place_of (cones list.now) k) (combined_ds_shift_deed sigma_mu) shift.old step_z.old step_s.old w.now eta.now
        marks.now) }
{
    let p = conewalk::place_of(list, k);
    codes::answer(list_shifts::combined_ds_shift_at(
        p, shift, step_z, step_s, sigma_mu, w, eta, marks,
    ))
}

#[unsafe(no_mangle)]
pub extern "C" fn akm_list_ds_from_dz_offset(
    list: &[[usize; 3]],
    k: usize,
    out: &mut [f64],
    ds: &[f64],
    z: &[f64],
    w: &[f64],
    lambda: &[f64],
    eta: &[f64],
    marks: &[u8],
) -> u8
    ensures { export result [] (out.new ⨾ tt)
        ≡ export_of values_of [] (comes_at (place_of (cones list.now) k) ds_from_dz_offset_deed out.old ds.now z.now w.now lambda.now eta.now marks.now) }
{
    let p = conewalk::place_of(list, k);
    codes::answer(list_shifts::ds_from_dz_offset_at(p, out, ds, z, w, lambda, eta, marks))
}

#[unsafe(no_mangle)]
pub extern "C" fn akm_list_step_length(
    list: &[[usize; 3]],
    k: usize,
    dz: &[f64],
    ds: &[f64],
    z: &[f64],
    s: &[f64],
    limit: f64,
    step_z: &mut f64,
    step_s: &mut f64,
) -> u8
    ensures { export result (real step_z.new ∷ real step_s.new ∷ []) tt
        ≡ export_of values_of (real step_z.old ∷ real step_s.old ∷ []) (comes_at (place_of (cones list.now) k) (step_length_deed limit) dz.now ds.now z.now
        s.now) }
{
    let p = conewalk::place_of(list, k);
    codes::steps(
        list_step::step_length_at(p, dz, ds, z, s, limit),
        step_z,
        step_s,
    )
}

#[unsafe(no_mangle)]
pub extern "C" fn akm_list_mul_w(
    list: &[[usize; 3]],
    k: usize,
    y: &mut [f64],
    x: &[f64],
    alpha: f64,
    beta: f64,
    w: &[f64],
    eta: &[f64],
    marks: &[u8],
) -> u8
    ensures { export result [] (y.new ⨾ tt)
        ≡ export_of values_of [] (comes_at (place_of (cones list.now) k) (mul_w_deed alpha beta) y.old x.now w.now eta.now marks.now) }
{
    let p = conewalk::place_of(list, k);
    codes::answer(list_products::mul_w_at(p, y, x, alpha, beta, w, eta, marks))
}

#[unsafe(no_mangle)]
pub extern "C" fn akm_list_mul_winv(
    list: &[[usize; 3]],
    k: usize,
    y: &mut [f64],
    x: &[f64],
    alpha: f64,
    beta: f64,
    w: &[f64],
    eta: &[f64],
    marks: &[u8],
) -> u8
    ensures { export result [] (y.new ⨾ tt)
        ≡ export_of values_of [] (comes_at (place_of (cones list.now) k) (mul_winv_deed alpha beta) y.old x.now w.now eta.now marks.now) }
{
    let p = conewalk::place_of(list, k);
    codes::answer(list_products::mul_winv_at(p, y, x, alpha, beta, w, eta, marks))
}

#[unsafe(no_mangle)]
pub extern "C" fn akm_list_circ_op(
    list: &[[usize; 3]],
    k: usize,
    x: &mut [f64],
    y: &[f64],
    z: &[f64],
) -> u8
    ensures { export result [] (x.new ⨾ tt)
        ≡ export_of values_of [] (comes_at (place_of (cones list.now) k) circ_op_deed x.old y.now z.now) }
{
    let p = conewalk::place_of(list, k);
    codes::answer(list_jordan::circ_op_at(p, x, y, z))
}

#[unsafe(no_mangle)]
pub extern "C" fn akm_list_inv_circ_op(
    list: &[[usize; 3]],
    k: usize,
    x: &mut [f64],
    y: &[f64],
    z: &[f64],
) -> u8
    ensures { export result [] (x.new ⨾ tt)
        ≡ export_of values_of [] (comes_at (place_of (cones list.now) k) inv_circ_op_deed x.old y.now z.now) }
{
    let p = conewalk::place_of(list, k);
    codes::answer(list_jordan::inv_circ_op_at(p, x, y, z))
}

#[unsafe(no_mangle)]
pub extern "C" fn akm_list_lambda_inv_circ_op(
    list: &[[usize; 3]],
    k: usize,
    x: &mut [f64],
    z: &[f64],
    lambda: &[f64],
    marks: &[u8],
) -> u8
    ensures { export result [] (x.new ⨾ tt)
        ≡ export_of values_of [] (comes_at (place_of (cones list.now) k) lambda_inv_circ_op_deed x.old z.now lambda.now marks.now) }
{
    let p = conewalk::place_of(list, k);
    codes::answer(list_jordan::lambda_inv_circ_op_at(p, x, z, lambda, marks))
}

#[unsafe(no_mangle)]
pub extern "C" fn akm_list_standing(
    list: &[[usize; 3]],
    k: usize,
    z: &[f64],
    standing: &mut u8,
) -> u8
    ensures { export result (whole standing.new ∷ []) tt
        ≡ export_of values_of (whole standing.old ∷ []) (comes_at (place_of (cones list.now) k) standing_deed z.now) }
{
    let p = conewalk::place_of(list, k);
    codes::stands(list_standing::standing_at(p, z), standing)
}

#[unsafe(no_mangle)]
pub extern "C" fn akm_whole_update_scaling(
    list: &[[usize; 3]],
    s: &[f64],
    z: &[f64],
    w: &mut [f64],
    lambda: &mut [f64],
    u: &mut [f64],
    v: &mut [f64],
    eta: &mut [f64],
    d: &mut [f64],
    marks: &mut [u8],
    truth: &mut u8,
    cone: &mut usize,
) -> u8
    ensures { export result (whole truth.new ∷ whole cone.new ∷ []) (w.new ⨾ lambda.new ⨾ u.new ⨾ v.new ⨾ eta.new ⨾ d.new ⨾ marks.new ⨾ tt)
        ≡ export_of (scaled_values cone.old) (whole truth.old ∷ whole cone.old ∷ []) (list_update_scaling (cones list.now) s.now z.now w.old lambda.old u.old
        v.old eta.old d.old marks.old) }
{
    codes::scalings(
        whole_scaling::list_update_scaling(list, s, z, w, lambda, u, v, eta, d, marks),
        truth,
        cone,
    )
}

#[unsafe(no_mangle)]
pub extern "C" fn akm_whole_step_length(
    list: &[[usize; 3]],
    dz: &[f64],
    ds: &[f64],
    z: &[f64],
    s: &[f64],
    limit: f64,
    step_z: &mut f64,
    step_s: &mut f64,
) -> u8
    ensures { export result (real step_z.new ∷ real step_s.new ∷ []) tt
        ≡ export_of values_of (real step_z.old ∷ real step_s.old ∷ []) (list_step_length (cones list.now) dz.now ds.now z.now s.now limit) }
{
    codes::steps(
        whole_step::list_step_length(list, dz, ds, z, s, limit),
        step_z,
        step_s,
    )
}
