// The list step (document 01, "Nonnegative rules": "Over a list each cone gets the caller's αmax, and each side's least is the answer"), over a row of
// cones in either form. Ported from nothing: the crate's list of cones is not in the text given. The row is walked once: a record is checked, and
// its cone's steps are taken, in one turn.
#![tactic(auto, using(crate::proofs::Walked::end_fits), unfolding(crate::specs::Walk::step_over))]

ghost use Rattle.std.specs.Prelude.{◌≡◌, IfOk};
ghost use Rattle.answers.specs.Refusal.{number_in};
ghost use Rattle.answers.specs.Outcome.{tells, of_steps};
ghost use Rattle.conelist.specs.Layout.{bad_record};
ghost use Rattle.whole_step.specs.List.{list_step_length};
ghost use Rattle.whole_step.specs.Walk.{step_over};

use answers::{Refusal, StepPair};
use conelist::Cone;
use records::Record;

// A walk on its way: the entries behind it, and each side's least so far.
#[derive(Clone, Copy)]
pub struct Walk {
    pub total: usize,
    pub z: f64,
    pub s: f64,
}

// Over one record more, which is checked: its cone's own steps, each at the caller's limit. Where a slice ends before the cone does, no step is
// taken: the call is then refused for that slice's length in the end, or for a later record, which ranks before.
fn step_over(
    walk: Walk,
    c: Cone,
    dz: &[f64],
    ds: &[f64],
    z: &[f64],
    s: &[f64],
    limit: f64,
) -> Result<Walk, Refusal>
    ensures refusal { number_in result ≡ bad_record walk.total c }
    ensures goes_on { IfOk result (λ w. w ≡ step_over walk c.kind dz.now ds.now z.now s.now limit) }
{
    let at = walk.total;
    place_turns::check_record(at, c)?;
    let kind = c.kind;
    let end = at + kind.dim();
    if (dz.len() < end) | (ds.len() < end) | (z.len() < end) | (s.len() < end) {
        return Ok(Walk { total: end, ..walk });
    }
    let own = list_step::kind_step_length(
        kind,
        &dz[at..end],
        &ds[at..end],
        &z[at..end],
        &s[at..end],
        limit,
    );
    Ok(Walk {
        total: end,
        z: extrema::least(walk.z, own.z),
        s: extrema::least(walk.s, own.s),
    })
}

// The two steps over the list, z side and s side: each cone gets the caller's limit, and each side's least is the answer.
pub fn list_step_length<R: Record>(
    list: &[R],
    dz: &[f64],
    ds: &[f64],
    z: &[f64],
    s: &[f64],
    limit: f64,
) -> Result<StepPair, Refusal>
    ensures { tells (of_steps result) tt ≡ list_step_length (R.cones list.now) dz.now ds.now z.now s.now limit }
{
    if 256 < list.len() {
        return Err(Refusal::Size);
    }
    let mut walk = Walk {
        total: 0,
        z: limit,
        s: limit,
    };
    for record in list {
        walk = step_over(walk, record.cone(), dz, ds, z, s, limit)?;
    }
    let total = walk.total;
    let same = (dz.len() == total) & (ds.len() == total) & (z.len() == total) & (s.len() == total);
    answers::check_length(same)?;
    answers::check_limit(limit)?;
    Ok(StepPair {
        z: walk.z,
        s: walk.s,
    })
}
