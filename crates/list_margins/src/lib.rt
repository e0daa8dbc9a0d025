// Margins of one cone of a list (document 01, "Second-order rules" and "Nonnegative rules"; source documents 000, lines 104 to 108, and 001,
// lines 58 to 62), over the cone's place: by the cone's kind, on the cone's own range, and the call.
#![tactic(auto, using(answers::proofs::Laws::outcomes))]

ghost use Rattle.std.specs.Prelude.{◌≡◌, [], ◌∷◌, length};
ghost use Rattle.answers.specs.Refusal.{Fit};
ghost use Rattle.answers.specs.Outcome.{margins_of, of_margins, tells};
ghost use Rattle.conelist.specs.Layout.{least_dim, Open, range_of};
ghost use Rattle.conecalls.specs.Deed.{comes_at};
ghost use Rattle.list_margins.specs.Margins.{kind_margins, margins_deed};

use answers::{Margins, Refusal};
use conelist::{Kind, Place};

fn kind_margins(kind: Kind, z: &[f64]) -> Margins
    requires { Fit (least_dim kind) (length z.now) [] }
    ensures { margins_of result ≡ kind_margins kind z.now }
{
    match kind {
        Kind::Nonnegative(n) => nn_units::margins(z),
        Kind::SecondOrder(n) => {
            let alpha = soc_units::margin(z);
            Margins {
                alpha,
                beta: extrema::greatest(0.0, alpha),
            }
        }
    }
}

fn margins_in(p: Place, z: &[f64]) -> Margins
    requires { Open p ((length z.now, p.entries) ∷ []) }
    ensures { margins_of result ≡ kind_margins p.kind (range_of p z.now) }
{
    let at = p.start;
    let kind = p.kind;
    let end = at + kind.dim();
    kind_margins(kind, &z[at..end])
}

pub fn margins_at(p: Place, z: &[f64]) -> Result<Margins, Refusal>
    ensures { tells (of_margins result) tt ≡ comes_at p margins_deed z.now }
{
    let entries = p.entries;
    p.check(z.len() == entries)?;
    Ok(margins_in(p, z))
}
