// Unit initialisation of one cone of a list (document 01, "Second-order rules" and "Nonnegative rules"; source documents 000, lines 114 to 119,
// and 001, lines 68 to 71), over the cone's place: by the cone's kind, on the cone's own ranges, and the call.
#![tactic(auto, using(answers::proofs::Laws::outcomes))]

ghost use Rattle.std.specs.Prelude.{◌≡◌, [], ◌∷◌, length};
ghost use Rattle.answers.specs.Refusal.{Fit};
ghost use Rattle.answers.specs.Outcome.{tells, of_answer, ◌⨾◌};
ghost use Rattle.conelist.specs.Layout.{least_dim, Open};
ghost use Rattle.conecalls.specs.Deed.{comes_at, works_at};
ghost use Rattle.list_units.specs.Units.{kind_unit, unit_initialization_deed};

use answers::Refusal;
use conelist::{Kind, Place};

fn kind_unit(kind: Kind, z: &mut [f64])
    requires { Fit (least_dim kind) (length z.old) [] }
    ensures { z.new ≡ kind_unit kind (length z.old) }
{
    match kind {
        Kind::Nonnegative(n) => vecmath::fill(z, 1.0),
        Kind::SecondOrder(n) => soc_units::unit_vector(z),
    }
}

fn unit_initialization_in(p: Place, z: &mut [f64], s: &mut [f64])
    requires { Open p ((length z.old, p.entries) ∷ (length s.old, p.entries) ∷ []) }
    ensures { z.new ⨾ s.new ⨾ tt ≡ (works_at p unit_initialization_deed z.old s.old).news }
{
    let at = p.start;
    let kind = p.kind;
    let end = at + kind.dim();
    kind_unit(kind, &mut z[at..end]);
    kind_unit(kind, &mut s[at..end]);
}

pub fn unit_initialization_at(p: Place, z: &mut [f64], s: &mut [f64]) -> Result<(), Refusal>
    ensures { tells (of_answer result) (z.new ⨾ s.new ⨾ tt) ≡ comes_at p unit_initialization_deed z.old s.old }
{
    let entries = p.entries;
    p.check((z.len() == entries) & (s.len() == entries))?;
    unit_initialization_in(p, z, s);
    Ok(())
}
