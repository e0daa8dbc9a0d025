// `update_scaling` of one cone of a list (document 01, "Second-order rules" and "Nonnegative rules"; source documents 000, lines 134 to 211, and
// 001, lines 77 to 90), over the cone's place: by the cone's kind, on the cone's own ranges, and the call, which sets the mark (document 02, item 4).
// The stored buffers travel together but stay parameters: document 01 asks for functions on slices and numbers, and C lends each by itself.
#![tactic(auto, using(answers::proofs::Laws::outcomes))]

ghost use Rattle.std.specs.Prelude.{◌≡◌, [], ◌∷◌, length};
ghost use Rattle.answers.specs.Refusal.{Fit};
ghost use Rattle.answers.specs.Outcome.{truth, tells, of_scaling, ◌⨾◌};
ghost use Rattle.soc_scaling.specs.Scaling.{stored};
ghost use Rattle.conelist.specs.Layout.{least_dim, Fits, Open};
ghost use Rattle.conecalls.specs.Deed.{comes_at, works_at};
ghost use Rattle.list_scaling.specs.Scaling.{kind_scaling, update_scaling_unmarked, update_scaling_deed, lengths_at};

use answers::Refusal;
use conelist::{Kind, Place};

// A nonnegative cone uses no u, v, η, d: they stay.
fn kind_scaling(
    kind: Kind,
    s: &[f64],
    z: &[f64],
    w: &mut [f64],
    lambda: &mut [f64],
    u: &mut [f64],
    v: &mut [f64],
    eta: &mut f64,
    d: &mut f64,
) -> bool
    requires { Fit (least_dim kind) (length s.now)
        (length z.now ∷ length w.old ∷ length lambda.old ∷ length u.old ∷ length v.old ∷ []) }
    ensures { record {
      reply = truth result;
      news = stored w.new lambda.new u.new v.new eta.new d.new;
    }
        ≡ kind_scaling kind s.now z.now w.old lambda.old u.old v.old
        eta.old d.old }
{
    match kind {
        Kind::Nonnegative(n) => nn_scaling::update_scaling(s, z, w, lambda),
        Kind::SecondOrder(n) => soc_scaling::update_scaling(s, z, w, lambda, u, v, eta, d),
    }
}

fn scaling_in(
    p: Place,
    s: &[f64],
    z: &[f64],
    w: &mut [f64],
    lambda: &mut [f64],
    u: &mut [f64],
    v: &mut [f64],
    eta: &mut [f64],
    d: &mut [f64],
) -> bool
    requires { Open p ((length w.old, p.entries) ∷ (length lambda.old, p.entries) ∷ (length u.old, p.entries)
        ∷ (length v.old, p.entries) ∷ (length eta.old, p.count) ∷ (length d.old, p.count) ∷ (length s.now, p.entries)
        ∷ (length z.now, p.entries) ∷ []) }
    ensures { record {
      reply = truth result;
      news = (w.new ⨾ lambda.new ⨾ u.new ⨾ v.new ⨾ eta.new ⨾ d.new ⨾ tt);
    }
        ≡ works_at p update_scaling_unmarked w.old lambda.old u.old v.old eta.old d.old
        s.now z.now }
{
    let at = p.start;
    let kind = p.kind;
    let k = p.index;
    let end = at + kind.dim();
    kind_scaling(
        kind,
        &s[at..end],
        &z[at..end],
        &mut w[at..end],
        &mut lambda[at..end],
        &mut u[at..end],
        &mut v[at..end],
        &mut eta[k],
        &mut d[k],
    )
}

// The same, and the mark.
fn scaling_marked(
    p: Place,
    s: &[f64],
    z: &[f64],
    w: &mut [f64],
    lambda: &mut [f64],
    u: &mut [f64],
    v: &mut [f64],
    eta: &mut [f64],
    d: &mut [f64],
    marks: &mut [u8],
) -> bool
    requires { Open p (lengths_at p s.now z.now w.old lambda.old u.old v.old eta.old d.old marks.old) }
    ensures { record {
      reply = truth result;
      news = (w.new ⨾ lambda.new ⨾ u.new ⨾ v.new ⨾ eta.new ⨾ d.new ⨾ marks.new ⨾ tt);
    }
        ≡ works_at p update_scaling_deed w.old lambda.old u.old v.old eta.old d.old marks.old
        s.now z.now }
{
    let truth = scaling_in(p, s, z, w, lambda, u, v, eta, d);
    marks::set_scaled(marks, p.index, truth);
    truth
}

// The call, where the lengths are known to fit: a walk over the list tests them once.
pub fn update_scaling_fit(
    p: Place,
    s: &[f64],
    z: &[f64],
    w: &mut [f64],
    lambda: &mut [f64],
    u: &mut [f64],
    v: &mut [f64],
    eta: &mut [f64],
    d: &mut [f64],
    marks: &mut [u8],
) -> Result<bool, Refusal>
    requires { Fits (lengths_at p s.now z.now w.old lambda.old u.old v.old eta.old d.old marks.old) }
    ensures { tells (of_scaling result)
        (w.new ⨾ lambda.new ⨾ u.new ⨾ v.new ⨾ eta.new ⨾ d.new ⨾ marks.new ⨾ tt)
        ≡ comes_at p update_scaling_deed w.old lambda.old u.old v.old eta.old d.old
        marks.old s.now z.now }
{
    p.check_spot()?;
    Ok(scaling_marked(p, s, z, w, lambda, u, v, eta, d, marks))
}

pub fn update_scaling_at(
    p: Place,
    s: &[f64],
    z: &[f64],
    w: &mut [f64],
    lambda: &mut [f64],
    u: &mut [f64],
    v: &mut [f64],
    eta: &mut [f64],
    d: &mut [f64],
    marks: &mut [u8],
) -> Result<bool, Refusal>
    ensures { tells (of_scaling result)
        (w.new ⨾ lambda.new ⨾ u.new ⨾ v.new ⨾ eta.new ⨾ d.new ⨾ marks.new ⨾ tt)
        ≡ comes_at p update_scaling_deed w.old lambda.old u.old v.old eta.old d.old
        marks.old s.now z.now }
{
    let entries = p.entries;
    let count = p.count;
    let same = (w.len() == entries)
        & (lambda.len() == entries)
        & (u.len() == entries)
        & (v.len() == entries)
        & (eta.len() == count)
        & (d.len() == count)
        & (marks.len() == count)
        & (s.len() == entries)
        & (z.len() == entries);
    p.check(same)?;
    Ok(scaling_marked(p, s, z, w, lambda, u, v, eta, d, marks))
}
