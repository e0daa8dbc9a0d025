// What a scaling of the second-order cone computes (source document 000, lines 158 to 184): the vector w and its norming, and the scaling
// point lambda. The root scale of w is found before w is written, so that a late false changes nothing (document 02, item 4). The caller
// has checked the lengths.
#![tactic(auto, using(crate::proofs::Laws::scale_of_point), unfolding(crate::specs::Terms::point_of, crate::specs::Terms::normed_of, crate::specs::Terms::lambda_of))]

ghost use Rattle.std.specs.Prelude.{◌≡◌, [], ◌∷◌, length};
ghost use Rattle.vecmath.specs.Vector.{sumsq};
ghost use Rattle.tails.specs.Tail.{tail};
ghost use Rattle.answers.specs.Refusal.{Fit};
ghost use Rattle.soc_residual.specs.Residual.{root_scale};
ghost use Rattle.soc_terms.specs.Terms.{point_of, normed_of, lambda_of};

// The root scale of what `point` would write, by the same operations on each entry.
pub fn point_scale(s: &[f64], z: &[f64], sscale: f64, zscale: f64) -> f64
    requires { Fit 2 (length s.now) (length z.now ∷ []) }
    ensures { result ≡ root_scale (point_of s.now z.now sscale zscale) }
{
    let w0 = (1.0 / sscale) * s[0] + z[0] / zscale;
    let w1norm = tails::norm_axpby(-(1.0 / zscale), z, 1.0 / sscale, s);
    soc_residual::root_scale_of(soc_residual::residual_of(w0, w1norm))
}

// w = (1/sscale)·s, with z₀/zscale added to the first entry and −(1/zscale)·z₁ to the rest
pub fn point(w: &mut [f64], s: &[f64], z: &[f64], sscale: f64, zscale: f64)
    requires { Fit 2 (length s.now) (length z.now ∷ length w.old ∷ []) }
    ensures { w.new ≡ point_of s.now z.now sscale zscale }
{
    vecmath::copy_from(w, s);
    vecscale::scale(w, 1.0 / sscale);
    let w0 = w[0] + z[0] / zscale;
    tails_write::set_first(w, w0);
    tails_write::axpby(w, -(1.0 / zscale), z, 1.0);
}

// Forces w to come out normalized; the answer is w₁·w₁.
pub fn normalize(w: &mut [f64], wscale: f64) -> f64
    requires { Fit 2 (length w.old) [] }
    ensures w_after { w.new ≡ normed_of w.old wscale }
    ensures value { result ≡ sumsq (tail w.new) }
{
    vecscale::scale(w, 1.0 / wscale);
    let w1sq = tails::sumsq(w);
    tails_write::set_first(w, root::sqrt(1.0 + w1sq));
    w1sq
}

// The scaling point λ = W·z.
pub fn scaling_point(
    lambda: &mut [f64],
    s: &[f64],
    z: &[f64],
    sscale: f64,
    zscale: f64,
    wscale: f64,
)
    requires { Fit 2 (length s.now) (length z.now ∷ length lambda.old ∷ []) }
    ensures { lambda.new ≡ lambda_of s.now z.now sscale zscale wscale }
{
    let gamma = 0.5 * wscale;
    tails_write::set_first(lambda, gamma);
    tails_write::waxpby(
        lambda,
        (gamma + z[0] / zscale) / sscale,
        s,
        (gamma + s[0] / sscale) / zscale,
        z,
    );
    tails_write::scale(lambda, 1.0 / (s[0] / sscale + z[0] / zscale + 2.0 * gamma));
    vecscale::scale(lambda, root::sqrt(sscale * zscale));
}
