// Where a point stands towards its cone (document 01, "Standing"; ours, beside `update_scaling`, whose answer stays as ported): the bare
// calls of both kinds, and behind each the kernel that it calls once nothing is refused.
#![tactic(auto, using(answers::proofs::Laws::outcomes, answers::proofs::Laws::fits, extrema::proofs::Laws::ne_self, vecmath::proofs::Loops::loops), unfolding(crate::specs::Standing::soc_standing, crate::specs::Standing::some, crate::specs::Standing::nonneg_standing))]

ghost use Rattle.std.specs.Prelude.{◌≡◌, [], length};
ghost use Rattle.std.specs.Float.Ieee.{is_nan, lt, eq};
ghost use Rattle.vecmath.specs.Double.{𝟎};
ghost use Rattle.answers.specs.Refusal.{Fit};
ghost use Rattle.answers.specs.Outcome.{tells, of_stands};
ghost use Rattle.standing.specs.Standing.{some, soc_standing, nonneg_standing, soc_stands, nn_stands};

use answers::{Refusal, Standing};

pub fn second_order(z: &[f64]) -> Standing
    requires { Fit 2 (length z.now) [] }
    ensures { result ≡ soc_standing z.now }
{
    let r = soc_residual::residual(z);
    if r != r {
        return Standing::NotNumber;
    }
    if r == 0.0 {
        return Standing::Edge;
    }
    if r < 0.0 {
        return Standing::Outside;
    }
    if z[0] > 0.0 {
        Standing::Inside
    } else {
        Standing::Mirrored
    }
}

// Which of the three there is among the entries, in one pass.
#[derive(Clone, Copy)]
struct Found {
    nan: bool,
    below: bool,
    zero: bool,
}

fn present(z: &[f64]) -> Found
    ensures nan_value { result.nan ≡ some is_nan z.now }
    ensures below_value { result.below ≡ some (λ x. lt x 𝟎) z.now }
    ensures zero_value { result.zero ≡ some (λ x. eq x 𝟎) z.now }
{
    let mut nan = false;
    let mut below = false;
    let mut zero = false;
    for &x in z {
        nan |= x != x;
        below |= x < 0.0;
        zero |= x == 0.0;
    }
    Found { nan, below, zero }
}

pub fn nonnegative(z: &[f64]) -> Standing
    ensures { result ≡ nonneg_standing z.now }
{
    let f = present(z);
    if f.nan {
        return Standing::NotNumber;
    }
    if f.below {
        return Standing::Outside;
    }
    if f.zero {
        Standing::Edge
    } else {
        Standing::Inside
    }
}

pub fn soc_standing(z: &[f64]) -> Result<Standing, Refusal>
    ensures { tells (of_stands result) tt ≡ soc_stands z.now }
{
    answers::check(2, z.len(), true)?;
    Ok(second_order(z))
}

pub fn nn_standing(z: &[f64]) -> Result<Standing, Refusal>
    ensures { tells (of_stands result) tt ≡ nn_stands z.now }
{
    answers::check(0, z.len(), true)?;
    Ok(nonnegative(z))
}
