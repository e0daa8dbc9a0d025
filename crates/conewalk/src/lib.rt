// Where cone k of a lent row of records lies (document 01, "The list and its buffers" and "Refusal numbers"): the row is walked once, and checked
// record by record, by the turns of place_turns. Ported from nothing: the crate has no list of its own.
#![tactic(auto)]

ghost use Rattle.std.specs.Prelude.{◌≡◌};
ghost use Rattle.conelist.specs.Layout.{place_of};

use conelist::Place;
use records::Record;

// Cone k of the list, whose records are ours or C's: the row is walked once, checked record by record, and the cone found.
pub fn place_of<R: Record>(list: &[R], k: usize) -> Place
    ensures { result ≡ place_of (R.cones list.now) k }
{
    let mut p = place_turns::place_opening(list.len(), k);
    for record in list {
        p = place_turns::place_further(p, record.cone());
    }
    place_turns::place_closing(p)
}
