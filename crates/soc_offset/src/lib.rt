// The second-order cone's offset of Δs from Δz (source document 000, lines 266 to 287): the bare call, and behind it the kernel that it
// calls once nothing is refused.
#![tactic(auto, using(answers::proofs::Laws::outcomes, vecmath::proofs::Loops::loops, tails::proofs::Laws::part_tail, tails::proofs::Laws::tail_back), unfolding(crate::specs::Offset::add_offset, crate::specs::Offset::offset_of))]

ghost use Rattle.std.specs.Prelude.{◌≡◌, [], ◌∷◌, ◌≤◌, length};
ghost use Rattle.vecmath.specs.Double.{◌!◌};
ghost use Rattle.tails.specs.Tail.{tail};
ghost use Rattle.answers.specs.Refusal.{Fit};
ghost use Rattle.answers.specs.Outcome.{tells, of_answer, ◌⨾◌};
ghost use Rattle.soc_offset.specs.Offset.{add_offset, offset_of, soc_ds_from_dz_offset};

use answers::Refusal;

// out = out + eta·(ds + kappa·w)
fn add_offset(out: &mut [f64], eta: f64, ds: &[f64], kappa: f64, w: &[f64])
    requires { (length ds.now ≡ length out.old) × (length w.now ≡ length out.old) }
    ensures { out.new ≡ add_offset out.old eta ds.now kappa w.now }
{
    for (i, v) in out.iter_mut().enumerate() {
        *v += eta * (ds[i] + kappa * w[i]);
    }
}

// The same on entries from 1 on.
fn add_offset_tail(out: &mut [f64], eta: f64, ds: &[f64], kappa: f64, w: &[f64])
    requires { (1 ≤ length out.old) × (length ds.now ≡ length out.old) × (length w.now ≡ length out.old) }
    ensures { out.new ≡ out.old ! 0
        ∷ add_offset (tail out.old) eta (tail ds.now) kappa (tail w.now) }
{
    add_offset(&mut out[1..], eta, &ds[1..], kappa, &w[1..])
}

pub fn ds_from_dz_offset(
    out: &mut [f64],
    ds: &[f64],
    z: &[f64],
    w: &[f64],
    lambda: &[f64],
    eta: f64,
)
    requires { Fit 2 (length out.old) (length ds.now ∷ length z.now ∷ length w.now ∷ length lambda.now ∷ []) }
    ensures { out.new ≡ offset_of ds.now z.now w.now lambda.now eta }
{
    let resz = soc_residual::residual(z);
    let lambda1ds1 = tails::dot(lambda, ds);
    let w1ds1 = tails::dot(w, ds);
    vecmath::negate_from(out, z);
    tails_write::set_first(out, z[0]);
    let lambda0 = lambda[0];
    let c = lambda0 * ds[0] - lambda1ds1;
    vecscale::scale(out, c / resz);
    let out0 = out[0] + eta * w1ds1;
    tails_write::set_first(out, out0);
    add_offset_tail(out, eta, ds, w1ds1 / (1.0 + w[0]), w);
    vecscale::scale(out, 1.0 / lambda0);
}

// The constant part of Δs as a function of Δz.
pub fn soc_ds_from_dz_offset(
    out: &mut [f64],
    ds: &[f64],
    z: &[f64],
    w: &[f64],
    lambda: &[f64],
    eta: &f64,
) -> Result<(), Refusal>
    ensures { tells (of_answer result) (out.new ⨾ tt) ≡ soc_ds_from_dz_offset out.old ds.now z.now
        w.now lambda.now eta.now }
{
    let same = (ds.len() == out.len())
        & (z.len() == out.len())
        & (w.len() == out.len())
        & (lambda.len() == out.len());
    answers::check(2, out.len(), same)?;
    ds_from_dz_offset(out, ds, z, w, lambda, *eta);
    Ok(())
}
