// set_identity_scaling of one cone of a list (document 01, "Second-order rules" and "Nonnegative rules"; of marks document 02, item 4),
// over the cone's place. For each: by the cone's kind, on the cone's own ranges, and the call. Written by tools/surface.
#![tactic(auto, using(answers::proofs::Laws::outcomes))]

ghost use Rattle.std.specs.Prelude.{◌≡◌, [], ◌∷◌, length};
ghost use Rattle.answers.specs.Refusal.{Fit};
ghost use Rattle.answers.specs.Outcome.{tells, of_answer, ◌⨾◌};
ghost use Rattle.conelist.specs.Layout.{least_dim, Open};
ghost use Rattle.conecalls.specs.Deed.{comes_at, works_at};
ghost use Rattle.list_identity.specs.Identity.{kind_set_identity_scaling, set_identity_scaling_unmarked, set_identity_scaling_deed};

use answers::Refusal;
use conelist::{Kind, Place};
use marks::Mark;

// ---- set_identity_scaling (source documents 000, lines 121 to 132, and 001, lines 73 to 75): w = (1, 0, ..), eta = 1; above 4 entries
// also d = 1/2, u = (1/sqrt 2, 0, ..) and v = 0. lambda stays; of a nonnegative cone w = (1, 1, ..)

fn kind_set_identity_scaling(
    kind: Kind,
    w: &mut [f64],
    u: &mut [f64],
    v: &mut [f64],
    eta: &mut f64,
    d: &mut f64,
)
    requires { Fit (least_dim kind) (length w.old) (length u.old ∷ length v.old ∷ []) }
    ensures { w.new ⨾ u.new ⨾ v.new ⨾ eta.new ⨾ d.new ⨾ tt ≡ kind_set_identity_scaling kind w.old u.old v.old eta.old d.old }
{
    match kind {
        Kind::Nonnegative(n) => nn_identity::set_identity_scaling(w),
        Kind::SecondOrder(n) => soc_identity::set_identity_scaling(w, u, v, eta, d),
    }
}

fn set_identity_scaling_in(
    p: Place,
    w: &mut [f64],
    u: &mut [f64],
    v: &mut [f64],
    eta: &mut [f64],
    d: &mut [f64],
)
    requires { Open p ((length w.old, p.entries) ∷ (length u.old, p.entries) ∷ (length v.old, p.entries) ∷ (length eta.old, p.count) ∷ (length d.old, p.count) ∷ []) }
    ensures { w.new ⨾ u.new ⨾ v.new ⨾ eta.new ⨾ d.new ⨾ tt
        ≡ (works_at p set_identity_scaling_unmarked w.old u.old v.old eta.old d.old).news }
{
    let at = p.start;
    let kind = p.kind;
    let k = p.index;
    let end = at + kind.dim();
    kind_set_identity_scaling(
        kind,
        &mut w[at..end],
        &mut u[at..end],
        &mut v[at..end],
        &mut eta[k],
        &mut d[k],
    );
}

pub fn set_identity_scaling_at(
    p: Place,
    w: &mut [f64],
    u: &mut [f64],
    v: &mut [f64],
    eta: &mut [f64],
    d: &mut [f64],
    marks: &mut [u8],
) -> Result<(), Refusal>
    ensures { tells (of_answer result) (w.new ⨾ u.new ⨾ v.new ⨾ eta.new ⨾ d.new ⨾ marks.new ⨾ tt)
        ≡ comes_at p set_identity_scaling_deed w.old u.old v.old eta.old d.old marks.old }
{
    let entries = p.entries;
    let count = p.count;
    let same = (w.len() == entries)
        & (u.len() == entries)
        & (v.len() == entries)
        & (eta.len() == count)
        & (d.len() == count)
        & (marks.len() == count);
    p.check(same)?;
    set_identity_scaling_in(p, w, u, v, eta, d);
    marks[p.index] = u8::from(Mark::Identity);
    Ok(())
}
