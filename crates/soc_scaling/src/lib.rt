// The second-order cone's scaling (source document 000, lines 134 to 211): `update_scaling`, which writes nothing where it answers false
// (document 02, item 4). The bare call, and behind it the kernel that it calls once nothing is refused.
#![tactic(auto, using(answers::proofs::Laws::outcomes, crate::proofs::Laws::early, crate::proofs::Laws::late, crate::proofs::Laws::scaled))]

ghost use Rattle.std.specs.Prelude.{◌≡◌, [], ◌∷◌, length};
ghost use Rattle.answers.specs.Refusal.{Fit};
ghost use Rattle.answers.specs.Outcome.{truth, tells, of_scaling};
ghost use Rattle.soc_scaling.specs.Scaling.{stored, update_scaling, soc_update_scaling};

use answers::Refusal;

pub fn update_scaling(
    s: &[f64],
    z: &[f64],
    w: &mut [f64],
    lambda: &mut [f64],
    u: &mut [f64],
    v: &mut [f64],
    eta: &mut f64,
    d: &mut f64,
) -> bool
    requires { Fit 2 (length s.now)
        (length z.now ∷ length w.old ∷ length lambda.old ∷ length u.old ∷ length v.old ∷ []) }
    ensures { record {
      reply = truth result;
      news = stored w.new lambda.new u.new v.new eta.new d.new;
    }
        ≡ update_scaling s.now z.now w.old lambda.old u.old v.old
        eta.old d.old }
{
    let zscale = soc_residual::sqrt_residual(z);
    let sscale = soc_residual::sqrt_residual(s);
    if (zscale == 0.0) | (sscale == 0.0) {
        return false;
    }
    let wscale = soc_terms::point_scale(s, z, sscale, zscale);
    if wscale == 0.0 {
        return false;
    }
    *eta = root::sqrt(sscale / zscale);
    soc_terms::point(w, s, z, sscale, zscale);
    let w1sq = soc_terms::normalize(w, wscale);
    soc_terms::scaling_point(lambda, s, z, sscale, zscale, wscale);
    soc_sparse::expand(4 < s.len(), w, w1sq, u, v, d);
    true
}

pub fn soc_update_scaling(
    s: &[f64],
    z: &[f64],
    w: &mut [f64],
    lambda: &mut [f64],
    u: &mut [f64],
    v: &mut [f64],
    eta: &mut f64,
    d: &mut f64,
) -> Result<bool, Refusal>
    ensures { tells (of_scaling result)
        (stored w.new lambda.new u.new v.new eta.new d.new)
        ≡ soc_update_scaling s.now z.now w.old lambda.old u.old v.old
        eta.old d.old }
{
    let same = (z.len() == s.len())
        & (w.len() == s.len())
        & (lambda.len() == s.len())
        & (u.len() == s.len())
        & (v.len() == s.len());
    answers::check(2, s.len(), same)?;
    Ok(update_scaling(s, z, w, lambda, u, v, eta, d))
}
