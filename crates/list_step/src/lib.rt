// The step lengths of one cone of a list (document 01, "Second-order rules" and "Nonnegative rules"; source documents 000, lines 289 to 302 and
// 421 to 495, and 001, step_length), over the cone's place: by the cone's kind, on the cone's own ranges, and the call.
#![tactic(auto, using(answers::proofs::Laws::outcomes))]

ghost use Rattle.std.specs.Prelude.{◌≡◌, [], ◌∷◌, length};
ghost use Rattle.answers.specs.Refusal.{◌⊳◌, unlike, bad_limit, Fit};
ghost use Rattle.answers.specs.Outcome.{lengths, of_steps, tells};
ghost use Rattle.conelist.specs.Layout.{least_dim, spot_of, Open, range_of};
ghost use Rattle.conecalls.specs.Deed.{comes_at};
ghost use Rattle.list_step.specs.Step.{kind_step, step_length_deed};

use answers::{Refusal, StepPair};
use conelist::{Kind, Place};

pub fn kind_step_length(
    kind: Kind,
    dz: &[f64],
    ds: &[f64],
    z: &[f64],
    s: &[f64],
    limit: f64,
) -> StepPair
    requires { Fit (least_dim kind) (length dz.now) (length ds.now ∷ length z.now ∷ length s.now ∷ []) }
    ensures { lengths result.z result.s
        ≡ lengths (kind_step kind z.now dz.now limit) (kind_step kind s.now ds.now limit) }
{
    match kind {
        Kind::Nonnegative(n) => nn_step::step_length(dz, ds, z, s, limit),
        Kind::SecondOrder(n) => soc_step::step_length(dz, ds, z, s, limit),
    }
}

fn step_length_in(p: Place, dz: &[f64], ds: &[f64], z: &[f64], s: &[f64], limit: f64) -> StepPair
    requires { Open p ((length dz.now, p.entries) ∷ (length ds.now, p.entries) ∷ (length z.now, p.entries) ∷ (length s.now, p.entries) ∷ []) }
    ensures { lengths result.z result.s
        ≡ lengths (kind_step p.kind (range_of p z.now) (range_of p dz.now) limit) (kind_step p.kind (range_of p s.now) (range_of p ds.now) limit) }
{
    let at = p.start;
    let kind = p.kind;
    let end = at + kind.dim();
    kind_step_length(
        kind,
        &dz[at..end],
        &ds[at..end],
        &z[at..end],
        &s[at..end],
        limit,
    )
}

// The limit is tested last.
pub fn step_length_at(
    p: Place,
    dz: &[f64],
    ds: &[f64],
    z: &[f64],
    s: &[f64],
    limit: f64,
) -> Result<StepPair, Refusal>
    ensures { tells (of_steps result) tt ≡ comes_at p (step_length_deed limit) dz.now ds.now z.now s.now }
{
    let entries = p.entries;
    let same = (dz.len() == entries)
        & (ds.len() == entries)
        & (z.len() == entries)
        & (s.len() == entries);
    p.check(same)?;
    answers::check_limit(limit)?;
    Ok(step_length_in(p, dz, ds, z, s, limit))
}
