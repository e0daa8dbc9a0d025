// scaled_unit_shift, combined_ds_shift, ds_from_dz_offset of one cone of a list (document 01, "Second-order rules" and "Nonnegative rules";
// of marks document 02, item 4), over the cone's place. For each: by the cone's kind, on the cone's own ranges, and the call. Written by
// tools/surface.
#![tactic(auto, using(answers::proofs::Laws::outcomes))]

ghost use Rattle.std.specs.Prelude.{◌≡◌, [], ◌∷◌, length};
ghost use Rattle.answers.specs.Refusal.{Fit};
ghost use Rattle.answers.specs.Outcome.{tells, of_answer, ◌⨾◌};
ghost use Rattle.conelist.specs.Layout.{least_dim, Open};
ghost use Rattle.conecalls.specs.Deed.{comes_at, works_at};
ghost use Rattle.list_shifts.specs.Shift.{kind_scaled_unit_shift, scaled_unit_shift_deed, kind_combined_ds_shift, combined_ds_shift_unmarked, combined_ds_shift_deed, kind_ds_from_dz_offset, ds_from_dz_offset_unmarked, ds_from_dz_offset_deed};

use answers::Refusal;
use conelist::{Kind, Place};

// ---- scaled_unit_shift (source documents 000, lines 110 to 112, and 001, lines 64 to 66): z += alpha*(1, 0, ..); of a nonnegative cone z
// += alpha*(1, 1, ..)

fn kind_scaled_unit_shift(kind: Kind, z: &mut [f64], alpha: f64)
    requires { Fit (least_dim kind) (length z.old) [] }
    ensures { z.new ≡ kind_scaled_unit_shift kind z.old alpha }
{
    match kind {
        Kind::Nonnegative(n) => nn_units::scaled_unit_shift(z, alpha),
        Kind::SecondOrder(n) => soc_units::scaled_unit_shift(z, alpha),
    }
}

fn scaled_unit_shift_in(p: Place, z: &mut [f64], alpha: f64)
    requires { Open p ((length z.old, p.entries) ∷ []) }
    ensures { z.new ⨾ tt ≡ (works_at p (scaled_unit_shift_deed alpha) z.old).news }
{
    let at = p.start;
    let kind = p.kind;
    let end = at + kind.dim();
    kind_scaled_unit_shift(kind, &mut z[at..end], alpha);
}

pub fn scaled_unit_shift_at(p: Place, z: &mut [f64], alpha: f64) -> Result<(), Refusal>
    ensures { tells (of_answer result) (z.new ⨾ tt) ≡ comes_at p (scaled_unit_shift_deed alpha) z.old }
{
    let entries = p.entries;
    let same = z.len() == entries;
    p.check(same)?;
    scaled_unit_shift_in(p, z, alpha);
    Ok(())
}

// ---- combined_ds_shift (source document 002, lines 53 to 84): shift = Ds*Dz - sigma_mu*(1, 0, ..), with Dz = W*step_z and Ds = W's
// inverse times step_s, which are left in step_z and step_s; of a nonnegative cone shift = Ds*Dz - sigma_mu*(1, 1, ..), with Dz = w*step_z
// and Ds = step_s/w, which are left in step_z and step_s

fn kind_combined_ds_shift(
    kind: Kind,
    shift: &mut [f64],
    step_z: &mut [f64],
    step_s: &mut [f64],
    sigma_mu: f64,
    w: &[f64],
    eta: f64,
)
    requires { Fit (least_dim kind) (length shift.old) (length step_z.old ∷ length step_s.old ∷ length w.now ∷ []) }
    ensures { shift.new ⨾ step_z.new ⨾ step_s.new ⨾ tt
        ≡ kind_combined_ds_shift kind step_z.old step_s.old sigma_mu w.now eta }
{
    match kind {
        Kind::Nonnegative(n) => nn_combined::combined_ds_shift(shift, step_z, step_s, sigma_mu, w),
        Kind::SecondOrder(n) => soc_combined::combined_ds_shift(
            shift, step_z, step_s, sigma_mu, w, eta,
        ),
    }
}

fn combined_ds_shift_in(
    p: Place,
    shift: &mut [f64],
    step_z: &mut [f64],
    step_s: &mut [f64],
    sigma_mu: f64,
    w: &[f64],
    eta: &[f64],
)
    requires { Open p ((length shift.old, p.entries) ∷ (length step_z.old, p.entries) ∷ (length step_s.old, p.entries) ∷ (length w.now, p.entries) ∷
        (length eta.now, p.count) ∷ []) }
    ensures { shift.new ⨾ step_z.new ⨾ step_s.new ⨾ tt
        ≡ (works_at p (combined_ds_shift_unmarked sigma_mu) shift.old step_z.old step_s.old w.now eta.now).news }
{
    let at = p.start;
    let kind = p.kind;
    let k = p.index;
    let end = at + kind.dim();
    kind_combined_ds_shift(
        kind,
        &mut shift[at..end],
        &mut step_z[at..end],
        &mut step_s[at..end],
        sigma_mu,
        &w[at..end],
        eta[k],
    );
}

pub fn combined_ds_shift_at(
    p: Place,
    shift: &mut [f64],
    step_z: &mut [f64],
    step_s: &mut [f64],
    sigma_mu: f64,
    w: &[f64],
    eta: &[f64],
    marks: &[u8],
) -> Result<(), Refusal>
    ensures { tells (of_answer result) (shift.new ⨾ step_z.new ⨾ step_s.new ⨾ tt)
        ≡ comes_at p (combined_ds_shift_deed sigma_mu) shift.old step_z.old step_s.old w.now eta.now marks.now }
{
    let entries = p.entries;
    let count = p.count;
    let same = (shift.len() == entries)
        & (step_z.len() == entries)
        & (step_s.len() == entries)
        & (w.len() == entries)
        & (eta.len() == count)
        & (marks.len() == count);
    p.check(same)?;
    marks::check_set(p, marks)?;
    combined_ds_shift_in(p, shift, step_z, step_s, sigma_mu, w, eta);
    Ok(())
}

// ---- ds_from_dz_offset (source documents 000, lines 266 to 287, and 001, lines 122 to 126): out = the constant part of Ds as a function
// of Dz; of a nonnegative cone out = ds/z

fn kind_ds_from_dz_offset(
    kind: Kind,
    out: &mut [f64],
    ds: &[f64],
    z: &[f64],
    w: &[f64],
    lambda: &[f64],
    eta: f64,
)
    requires { Fit (least_dim kind) (length out.old) (length ds.now ∷ length z.now ∷ length w.now ∷ length lambda.now ∷ []) }
    ensures { out.new ≡ kind_ds_from_dz_offset kind ds.now z.now w.now lambda.now eta }
{
    match kind {
        Kind::Nonnegative(n) => nn_offset::ds_from_dz_offset(out, ds, z),
        Kind::SecondOrder(n) => soc_offset::ds_from_dz_offset(out, ds, z, w, lambda, eta),
    }
}

fn ds_from_dz_offset_in(
    p: Place,
    out: &mut [f64],
    ds: &[f64],
    z: &[f64],
    w: &[f64],
    lambda: &[f64],
    eta: &[f64],
)
    requires { Open p ((length out.old, p.entries) ∷ (length ds.now, p.entries) ∷ (length z.now, p.entries) ∷ (length w.now, p.entries) ∷
        (length lambda.now, p.entries) ∷ (length eta.now, p.count) ∷ []) }
    ensures { out.new ⨾ tt ≡ (works_at p ds_from_dz_offset_unmarked out.old ds.now z.now w.now lambda.now eta.now).news }
{
    let at = p.start;
    let kind = p.kind;
    let k = p.index;
    let end = at + kind.dim();
    kind_ds_from_dz_offset(
        kind,
        &mut out[at..end],
        &ds[at..end],
        &z[at..end],
        &w[at..end],
        &lambda[at..end],
        eta[k],
    );
}

pub fn ds_from_dz_offset_at(
    p: Place,
    out: &mut [f64],
    ds: &[f64],
    z: &[f64],
    w: &[f64],
    lambda: &[f64],
    eta: &[f64],
    marks: &[u8],
) -> Result<(), Refusal>
    ensures { tells (of_answer result) (out.new ⨾ tt)
        ≡ comes_at p ds_from_dz_offset_deed out.old ds.now z.now w.now lambda.now eta.now marks.now }
{
    let entries = p.entries;
    let count = p.count;
    let same = (out.len() == entries)
        & (ds.len() == entries)
        & (z.len() == entries)
        & (w.len() == entries)
        & (lambda.len() == entries)
        & (eta.len() == count)
        & (marks.len() == count);
    p.check(same)?;
    marks::check_offset(p, marks)?;
    ds_from_dz_offset_in(p, out, ds, z, w, lambda, eta);
    Ok(())
}
