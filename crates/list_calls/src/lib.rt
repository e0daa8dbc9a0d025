// The calls on one cone of a list (document 01, "The list and its buffers"; source documents 000, 001 and 002), over the lent row of
// records. Written by tools/surface.
#![tactic(auto)]

ghost use Rattle.std.specs.Prelude.{◌≡◌};
ghost use Rattle.answers.specs.Outcome.{tells, of_margins, of_answer, of_scaling, of_square, of_steps, of_stands, as_squared, ◌⨾◌};
ghost use Rattle.conelist.specs.Layout.{place_of};
ghost use Rattle.conecalls.specs.Deed.{comes_at};
ghost use Rattle.list_margins.specs.Margins.{margins_deed};
ghost use Rattle.list_shifts.specs.Shift.{scaled_unit_shift_deed, combined_ds_shift_deed, ds_from_dz_offset_deed};
ghost use Rattle.list_units.specs.Units.{unit_initialization_deed};
ghost use Rattle.list_identity.specs.Identity.{set_identity_scaling_deed};
ghost use Rattle.list_scaling.specs.Scaling.{update_scaling_deed};
ghost use Rattle.list_blocks.specs.Block.{get_hs_deed};
ghost use Rattle.list_square.specs.Square.{square_hs_deed};
ghost use Rattle.list_mul_hs.specs.Block.{mul_hs_deed};
ghost use Rattle.list_jordan.specs.Jordan.{affine_ds_deed, circ_op_deed, inv_circ_op_deed, lambda_inv_circ_op_deed};
ghost use Rattle.list_step.specs.Step.{step_length_deed};
ghost use Rattle.list_products.specs.Product.{mul_w_deed, mul_winv_deed};
ghost use Rattle.list_standing.specs.Standing.{standing_deed};

use answers::{Margins, Refusal, Square, Standing, StepPair};
use conelist::Cone;

pub fn margins(list: &[Cone], k: usize, z: &[f64]) -> Result<Margins, Refusal>
    ensures { tells (of_margins result) tt ≡ comes_at (place_of list.now k) margins_deed z.now }
{
    let p = conewalk::place_of(list, k);
    list_margins::margins_at(p, z)
}

pub fn scaled_unit_shift(list: &[Cone], k: usize, z: &mut [f64], alpha: f64) -> Result<(), Refusal>
    ensures { tells (of_answer result) (z.new ⨾ tt) ≡ comes_at (place_of list.now k) (scaled_unit_shift_deed alpha) z.old }
{
    let p = conewalk::place_of(list, k);
    list_shifts::scaled_unit_shift_at(p, z, alpha)
}

pub fn unit_initialization(
    list: &[Cone],
    k: usize,
    z: &mut [f64],
    s: &mut [f64],
) -> Result<(), Refusal>
    ensures { tells (of_answer result) (z.new ⨾ s.new ⨾ tt)
        ≡ comes_at (place_of list.now k) unit_initialization_deed z.old s.old }
{
    let p = conewalk::place_of(list, k);
    list_units::unit_initialization_at(p, z, s)
}

pub fn set_identity_scaling(
    list: &[Cone],
    k: usize,
    w: &mut [f64],
    u: &mut [f64],
    v: &mut [f64],
    eta: &mut [f64],
    d: &mut [f64],
    marks: &mut [u8],
) -> Result<(), Refusal>
    ensures { tells (of_answer result) (w.new ⨾ u.new ⨾ v.new ⨾ eta.new ⨾ d.new ⨾ marks.new ⨾ tt)
        ≡ comes_at (place_of list.now k) set_identity_scaling_deed w.old u.old v.old eta.old d.old marks.old }
{
    let p = conewalk::place_of(list, k);
    list_identity::set_identity_scaling_at(p, w, u, v, eta, d, marks)
}

pub fn update_scaling(
    list: &[Cone],
    k: usize,
    s: &[f64],
    z: &[f64],
    w: &mut [f64],
    lambda: &mut [f64],
    u: &mut [f64],
    v: &mut [f64],
    eta: &mut [f64],
    d: &mut [f64],
    marks: &mut [u8],
) -> Result<bool, Refusal>
    ensures { tells (of_scaling result) (w.new ⨾ lambda.new ⨾ u.new ⨾ v.new ⨾ eta.new ⨾ d.new ⨾ marks.new ⨾ tt)
        ≡ comes_at (place_of list.now k) update_scaling_deed w.old lambda.old u.old v.old eta.old d.old marks.old s.now z.now }
{
    let p = conewalk::place_of(list, k);
    list_scaling::update_scaling_at(p, s, z, w, lambda, u, v, eta, d, marks)
}

pub fn get_hs(
    list: &[Cone],
    k: usize,
    hs: &mut [f64],
    w: &[f64],
    eta: &[f64],
    d: &[f64],
    marks: &[u8],
) -> Result<(), Refusal>
    ensures { tells (of_answer result) (hs.new ⨾ tt)
        ≡ comes_at (place_of list.now k) get_hs_deed hs.old w.now eta.now d.now marks.now }
{
    let p = conewalk::place_of(list, k);
    list_blocks::get_hs_at(p, hs, w, eta, d, marks)
}

pub fn square_hs(list: &[Cone], k: usize, w: &[f64], eta: &[f64], marks: &[u8]) -> Square
    ensures { of_square result ≡ as_squared (comes_at (place_of list.now k) square_hs_deed w.now eta.now marks.now).ruling }
{
    let p = conewalk::place_of(list, k);
    list_square::square_hs_at(p, w, eta, marks)
}

pub fn mul_hs(
    list: &[Cone],
    k: usize,
    y: &mut [f64],
    x: &[f64],
    w: &[f64],
    eta: &[f64],
    marks: &[u8],
) -> Result<(), Refusal>
    ensures { tells (of_answer result) (y.new ⨾ tt)
        ≡ comes_at (place_of list.now k) mul_hs_deed y.old x.now w.now eta.now marks.now }
{
    let p = conewalk::place_of(list, k);
    list_mul_hs::mul_hs_at(p, y, x, w, eta, marks)
}

pub fn affine_ds(
    list: &[Cone],
    k: usize,
    ds: &mut [f64],
    lambda: &[f64],
    marks: &[u8],
) -> Result<(), Refusal>
    ensures { tells (of_answer result) (ds.new ⨾ tt)
        ≡ comes_at (place_of list.now k) affine_ds_deed ds.old lambda.now marks.now }
{
    let p = conewalk::place_of(list, k);
    list_jordan::affine_ds_at(p, ds, lambda, marks)
}

pub fn combined_ds_shift(
    list: &[Cone],
    k: usize,
    shift: &mut [f64],
    step_z: &mut [f64],
    step_s: &mut [f64],
    sigma_mu: f64,
    w: &[f64],
    eta: &[f64],
    marks: &[u8],
) -> Result<(), Refusal>
    ensures { tells (of_answer result) (shift.new ⨾ step_z.new ⨾ step_s.new ⨾ tt)
        ≡ comes_at (place_of list.now k) (combined_ds_shift_deed sigma_mu) shift.old step_z.old step_s.old w.now eta.now marks.now }
{
    let p = conewalk::place_of(list, k);
    list_shifts::combined_ds_shift_at(p, shift, step_z, step_s, sigma_mu, w, eta, marks)
}

pub fn ds_from_dz_offset(
    list: &[Cone],
    k: usize,
    out: &mut [f64],
    ds: &[f64],
    z: &[f64],
    w: &[f64],
    lambda: &[f64],
    eta: &[f64],
    marks: &[u8],
) -> Result<(), Refusal>
    ensures { tells (of_answer result) (out.new ⨾ tt)
        ≡ comes_at (place_of list.now k) ds_from_dz_offset_deed out.old ds.now z.now w.now lambda.now eta.now marks.now }
{
    let p = conewalk::place_of(list, k);
    list_shifts::ds_from_dz_offset_at(p, out, ds, z, w, lambda, eta, marks)
}

pub fn step_length(
    list: &[Cone],
    k: usize,
    dz: &[f64],
    ds: &[f64],
    z: &[f64],
    s: &[f64],
    limit: f64,
) -> Result<StepPair, Refusal>
    ensures { tells (of_steps result) tt
        ≡ comes_at (place_of list.now k) (step_length_deed limit) dz.now ds.now z.now s.now }
{
    let p = conewalk::place_of(list, k);
    list_step::step_length_at(p, dz, ds, z, s, limit)
}

pub fn mul_w(
    list: &[Cone],
    k: usize,
    y: &mut [f64],
    x: &[f64],
    alpha: f64,
    beta: f64,
    w: &[f64],
    eta: &[f64],
    marks: &[u8],
) -> Result<(), Refusal>
    ensures { tells (of_answer result) (y.new ⨾ tt)
        ≡ comes_at (place_of list.now k) (mul_w_deed alpha beta) y.old x.now w.now eta.now marks.now }
{
    let p = conewalk::place_of(list, k);
    list_products::mul_w_at(p, y, x, alpha, beta, w, eta, marks)
}

pub fn mul_winv(
    list: &[Cone],
    k: usize,
    y: &mut [f64],
    x: &[f64],
    alpha: f64,
    beta: f64,
    w: &[f64],
    eta: &[f64],
    marks: &[u8],
) -> Result<(), Refusal>
    ensures { tells (of_answer result) (y.new ⨾ tt)
        ≡ comes_at (place_of list.now k) (mul_winv_deed alpha beta) y.old x.now w.now eta.now marks.now }
{
    let p = conewalk::place_of(list, k);
    list_products::mul_winv_at(p, y, x, alpha, beta, w, eta, marks)
}

pub fn circ_op(list: &[Cone], k: usize, x: &mut [f64], y: &[f64], z: &[f64]) -> Result<(), Refusal>
    ensures { tells (of_answer result) (x.new ⨾ tt) ≡ comes_at (place_of list.now k) circ_op_deed x.old y.now z.now }
{
    let p = conewalk::place_of(list, k);
    list_jordan::circ_op_at(p, x, y, z)
}

pub fn inv_circ_op(
    list: &[Cone],
    k: usize,
    x: &mut [f64],
    y: &[f64],
    z: &[f64],
) -> Result<(), Refusal>
    ensures { tells (of_answer result) (x.new ⨾ tt) ≡ comes_at (place_of list.now k) inv_circ_op_deed x.old y.now z.now }
{
    let p = conewalk::place_of(list, k);
    list_jordan::inv_circ_op_at(p, x, y, z)
}

pub fn lambda_inv_circ_op(
    list: &[Cone],
    k: usize,
    x: &mut [f64],
    z: &[f64],
    lambda: &[f64],
    marks: &[u8],
) -> Result<(), Refusal>
    ensures { tells (of_answer result) (x.new ⨾ tt)
        ≡ comes_at (place_of list.now k) lambda_inv_circ_op_deed x.old z.now lambda.now marks.now }
{
    let p = conewalk::place_of(list, k);
    list_jordan::lambda_inv_circ_op_at(p, x, z, lambda, marks)
}

pub fn standing(list: &[Cone], k: usize, z: &[f64]) -> Result<Standing, Refusal>
    ensures { tells (of_stands result) tt ≡ comes_at (place_of list.now k) standing_deed z.now }
{
    let p = conewalk::place_of(list, k);
    list_standing::standing_at(p, z)
}
