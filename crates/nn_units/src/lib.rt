// The nonnegative cone (source document 001, nonnegativecone.rs): margins, unit shift and unit initialisation. The bare calls, and behind
// each the kernel that it calls once nothing is refused.
#![tactic(auto, using(answers::proofs::Laws::outcomes))]

ghost use Rattle.std.specs.Prelude.{◌≡◌, true, length};
ghost use Rattle.answers.specs.Outcome.{margins_of, of_margins, tells, of_answer, ◌⨾◌};
ghost use Rattle.nn_units.specs.Units.{nonneg_margins, nonneg_shift, nonneg_unit, nn_margins, nn_scaled_unit_shift, nn_unit_initialization};

use answers::{Margins, Refusal};

// ---- margins

pub fn margins(z: &[f64]) -> Margins
    ensures { margins_of result ≡ nonneg_margins z.now }
{
    let found = bounds::bounds(z);
    Margins {
        alpha: found.least,
        beta: found.sum,
    }
}

pub fn nn_margins(z: &[f64]) -> Result<Margins, Refusal>
    ensures { tells (of_margins result) tt ≡ nn_margins z.now }
{
    answers::check(0, z.len(), true)?;
    Ok(margins(z))
}

// ---- the unit

pub fn scaled_unit_shift(z: &mut [f64], alpha: f64)
    ensures { z.new ≡ nonneg_shift alpha z.old }
{
    vecscale::translate(z, alpha);
}

// z = z + alpha·(1, 1, ..)
pub fn nn_scaled_unit_shift(z: &mut [f64], alpha: f64) -> Result<(), Refusal>
    ensures { tells (of_answer result) (z.new ⨾ tt) ≡ nn_scaled_unit_shift z.old alpha }
{
    answers::check(0, z.len(), true)?;
    scaled_unit_shift(z, alpha);
    Ok(())
}

pub fn unit_initialization(z: &mut [f64], s: &mut [f64])
    ensures z_after { z.new ≡ nonneg_unit (length z.old) }
    ensures s_after { s.new ≡ nonneg_unit (length s.old) }
{
    vecmath::fill(z, 1.0);
    vecmath::fill(s, 1.0);
}

// z = s = (1, 1, ..)
pub fn nn_unit_initialization(z: &mut [f64], s: &mut [f64]) -> Result<(), Refusal>
    ensures { tells (of_answer result) (z.new ⨾ s.new ⨾ tt) ≡ nn_unit_initialization z.old s.old }
{
    answers::check(0, z.len(), s.len() == z.len())?;
    unit_initialization(z, s);
    Ok(())
}
