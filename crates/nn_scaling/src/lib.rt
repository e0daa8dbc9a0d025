// The nonnegative cone (source document 001, nonnegativecone.rs): update_scaling. The bare call, and behind it the kernel that it calls
// once nothing is refused.
#![tactic(auto, using(answers::proofs::Laws::outcomes, answers::proofs::Laws::fits, vecmath::proofs::Loops::loops), unfolding(crate::specs::Scaling::nonneg_w, crate::specs::Scaling::nonneg_lambda))]

ghost use Rattle.std.specs.Prelude.{◌≡◌, true, [], ◌∷◌, length};
ghost use Rattle.answers.specs.Refusal.{Fit};
ghost use Rattle.answers.specs.Outcome.{tells, of_scaling, ◌⨾◌};
ghost use Rattle.nn_scaling.specs.Scaling.{nonneg_lambda, nonneg_w, nn_update_scaling};

use answers::Refusal;

pub fn update_scaling(s: &[f64], z: &[f64], w: &mut [f64], lambda: &mut [f64]) -> bool
    requires { Fit 0 (length s.now) (length z.now ∷ length w.old ∷ length lambda.old ∷ []) }
    ensures value { result ≡ true }
    ensures w_after { w.new ≡ nonneg_w s.now z.now }
    ensures lambda_after { lambda.new ≡ nonneg_lambda s.now z.now }
{
    for (i, si) in s.iter().enumerate() {
        lambda[i] = root::sqrt(si * z[i]);
        w[i] = root::sqrt(si / z[i]);
    }
    true
}

// lambda = √(s·z) and w = √(s/z), entry by entry; always true
pub fn nn_update_scaling(
    s: &[f64],
    z: &[f64],
    w: &mut [f64],
    lambda: &mut [f64],
) -> Result<bool, Refusal>
    ensures { tells (of_scaling result) (w.new ⨾ lambda.new ⨾ tt)
        ≡ nn_update_scaling s.now z.now w.old lambda.old }
{
    answers::check(
        0,
        s.len(),
        (z.len() == s.len()) & (w.len() == s.len()) & (lambda.len() == s.len()),
    )?;
    Ok(update_scaling(s, z, w, lambda))
}
