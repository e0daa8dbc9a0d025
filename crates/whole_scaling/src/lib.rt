// The scaling of a whole list (document 02, item 1): `update_scaling` on cone 0, 1, .., up to and including the first that answers false. Ported from
// nothing: the crate's list of cones is not in the text given. The row, whose records are ours or C's, is walked twice: to refuse before anything is
// written, and to write.
#![tactic(auto, using(answers::proofs::Laws::ranks, std::proofs::lemmas::Bool::Decides::nat_tests))]

ghost use Rattle.std.specs.Prelude.{◌≡◌, cond, eqb};
ghost use Rattle.answers.specs.Refusal.{number_in, ◌⊳◌, unlike};
ghost use Rattle.answers.specs.Outcome.{tells, of_scalings, ◌⨾◌};
ghost use Rattle.conelist.specs.Layout.{carried};
ghost use Rattle.whole_scaling.specs.List.{list_update_scaling};
ghost use Rattle.whole_scaling.specs.Walk.{scaling_from};

use answers::Refusal;
use conelist::Place;
use records::Record;

// The refusal of a list of so many cones, by what its first cone's place carries: that there is no first one is none.
fn check_list(cones: usize, first: Place) -> Result<(), Refusal>
    ensures { number_in result ≡ cond (eqb cones 0) 0 (carried first) }
{
    if cones == 0 {
        Ok(())
    } else {
        first.check_carried()
    }
}

// The refusals of the whole call: the list's, then 5.
fn check(cones: usize, first: Place, same: bool) -> Result<(), Refusal>
    ensures { number_in result ≡ cond (eqb cones 0) 0 (carried first) ⊳ unlike same }
{
    check_list(cones, first)?;
    answers::check_length(same)
}

// The walk that writes, by the first cone's place, which the other has found. Of a place that no list gives it takes the refusal that it carries and
// its counts alone. What these refuse is refused before the first cone is scaled.
pub fn scaling_from<R: Record>(
    list: &[R],
    first: Place,
    s: &[f64],
    z: &[f64],
    w: &mut [f64],
    lambda: &mut [f64],
    u: &mut [f64],
    v: &mut [f64],
    eta: &mut [f64],
    d: &mut [f64],
    marks: &mut [u8],
) -> Result<Option<usize>, Refusal>
    ensures { tells (of_scalings result) (w.new ⨾ lambda.new ⨾ u.new ⨾ v.new ⨾ eta.new ⨾ d.new ⨾ marks.new ⨾ tt)
        ≡ scaling_from (R.cones list.now) first s.now z.now w.old lambda.old u.old v.old eta.old d.old marks.old }
{
    let entries = first.entries;
    let count = first.count;
    let same = (w.len() == entries)
        & (lambda.len() == entries)
        & (u.len() == entries)
        & (v.len() == entries)
        & (eta.len() == count)
        & (d.len() == count)
        & (marks.len() == count)
        & (s.len() == entries)
        & (z.len() == entries);
    check(list.len(), first, same)?;
    let mut place = Place {
        no: 0,
        index: 0,
        start: 0,
        block: 0,
        ..first
    };
    for record in list {
        let kind = record.cone().kind;
        let here = Place { kind, ..place };
        // By the list's own place nothing is refused here any more (`unrefused`, crates/orders/proofs/Scaled); and the lengths are not tested again.
        let truth = list_scaling::update_scaling_fit(here, s, z, w, lambda, u, v, eta, d, marks)?;
        if !truth {
            return Ok(Some(here.index));
        }
        place = Place {
            index: here.index + 1,
            start: here.start + kind.dim(),
            block: here.block + kind.block_dim(),
            ..here
        };
    }
    Ok(None)
}

// The scaling of every cone, one after another: none for all true, or the first that answers false, behind which nothing is written. All that is
// refused is refused before the first is scaled.
pub fn list_update_scaling<R: Record>(
    list: &[R],
    s: &[f64],
    z: &[f64],
    w: &mut [f64],
    lambda: &mut [f64],
    u: &mut [f64],
    v: &mut [f64],
    eta: &mut [f64],
    d: &mut [f64],
    marks: &mut [u8],
) -> Result<Option<usize>, Refusal>
    ensures { tells (of_scalings result) (w.new ⨾ lambda.new ⨾ u.new ⨾ v.new ⨾ eta.new ⨾ d.new ⨾ marks.new ⨾ tt)
        ≡ list_update_scaling (R.cones list.now) s.now z.now w.old lambda.old u.old v.old eta.old d.old marks.old }
{
    let first = conewalk::place_of(list, 0);
    scaling_from(list, first, s, z, w, lambda, u, v, eta, d, marks)
}
