// The second-order cone's margins and unit vectors (source document 000, lines 104 to 119): the bare calls, and behind each the kernel
// that it calls once nothing is refused.
#![tactic(auto, using(answers::proofs::Laws::outcomes, answers::proofs::Laws::fits, crate::proofs::Laws::unit_leads), unfolding(crate::specs::Units::margin, crate::specs::Units::unit_shift))]

ghost use Rattle.std.specs.Prelude.{◌≡◌, [], length};
ghost use Rattle.answers.specs.Refusal.{Fit};
ghost use Rattle.answers.specs.Outcome.{tells, of_answer, of_margins, ◌⨾◌};
ghost use Rattle.soc_units.specs.Units.{margin, unit_shift, unit_vector, soc_margins, soc_scaled_unit_shift, soc_unit_initialization};

use answers::{Margins, Refusal};

pub fn margin(z: &[f64]) -> f64
    requires { Fit 2 (length z.now) [] }
    ensures { result ≡ margin z.now }
{
    z[0] - tails::norm(z)
}

pub fn scaled_unit_shift(z: &mut [f64], alpha: f64)
    requires { Fit 2 (length z.old) [] }
    ensures { z.new ≡ unit_shift z.old alpha }
{
    let z0 = z[0] + alpha;
    tails_write::set_first(z, z0);
}

// One vector of the two.
pub fn unit_vector(z: &mut [f64])
    requires { Fit 2 (length z.old) [] }
    ensures { z.new ≡ unit_vector (length z.old) }
{
    vecmath::fill(z, 0.0);
    scaled_unit_shift(z, 1.0);
}

pub fn soc_margins(z: &[f64]) -> Result<Margins, Refusal>
    ensures { tells (of_margins result) tt ≡ soc_margins z.now }
{
    answers::check(2, z.len(), true)?;
    let alpha = margin(z);
    Ok(Margins {
        alpha,
        beta: extrema::greatest(0.0, alpha),
    })
}

// z = z + alpha·(1, 0, ..)
pub fn soc_scaled_unit_shift(z: &mut [f64], alpha: f64) -> Result<(), Refusal>
    ensures { tells (of_answer result) (z.new ⨾ tt) ≡ soc_scaled_unit_shift z.old alpha }
{
    answers::check(2, z.len(), true)?;
    scaled_unit_shift(z, alpha);
    Ok(())
}

pub fn soc_unit_initialization(z: &mut [f64], s: &mut [f64]) -> Result<(), Refusal>
    ensures { tells (of_answer result) (z.new ⨾ s.new ⨾ tt)
        ≡ soc_unit_initialization z.old s.old }
{
    answers::check(2, z.len(), s.len() == z.len())?;
    unit_vector(s);
    unit_vector(z);
    Ok(())
}
