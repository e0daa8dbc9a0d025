// The nonnegative cone (source document 001, nonnegativecone.rs): Δs_from_Δz_offset. The bare call, and behind it the kernel that it
// calls once nothing is refused.
#![tactic(auto, using(answers::proofs::Laws::outcomes, answers::proofs::Laws::fits))]

ghost use Rattle.std.specs.Prelude.{◌≡◌, [], ◌∷◌, length};
ghost use Rattle.answers.specs.Refusal.{Fit};
ghost use Rattle.answers.specs.Outcome.{tells, of_answer, ◌⨾◌};
ghost use Rattle.nn_offset.specs.Offset.{nonneg_offset, nn_ds_from_dz_offset};

use answers::Refusal;

pub fn ds_from_dz_offset(out: &mut [f64], ds: &[f64], z: &[f64])
    requires { Fit 0 (length out.old) (length ds.now ∷ length z.now ∷ []) }
    ensures { out.new ≡ nonneg_offset ds.now z.now }
{
    vectimes::divide(out, z, ds);
}

// out = ds/z, entry by entry
pub fn nn_ds_from_dz_offset(out: &mut [f64], ds: &[f64], z: &[f64]) -> Result<(), Refusal>
    ensures { tells (of_answer result) (out.new ⨾ tt) ≡ nn_ds_from_dz_offset out.old ds.now z.now }
{
    answers::check(
        0,
        out.len(),
        (ds.len() == out.len()) & (z.len() == out.len()),
    )?;
    ds_from_dz_offset(out, ds, z);
    Ok(())
}
