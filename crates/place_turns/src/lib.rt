// The turns of the walk that finds a cone's place (document 01, "The list and its buffers" and "Refusal numbers"): before the first record, over
// one record, which is checked, and behind the last. Ported from nothing: the crate has no list of its own.
#![tactic(auto, using(crate::proofs::Records::turns, answers::proofs::Laws::ranks, std::proofs::lemmas::Bool::Decides::nat_tests), unfolding(crate::specs::Walk::place_opening, crate::specs::Walk::place_further, crate::specs::Walk::place_closing, conelist::specs::Layout::bad_record))]

ghost use Rattle.std.specs.Prelude.{◌≡◌};
ghost use Rattle.answers.specs.Refusal.{number_of, number_in};
ghost use Rattle.conelist.specs.Layout.{bad_record, alone};
ghost use Rattle.place_turns.specs.Walk.{place_opening, place_further, place_closing, Going};

use answers::Refusal;
use conelist::{Cone, Kind, Place};

// No cone is met yet, and nothing is refused.
const NOWHERE: Place = Place {
    no: 0,
    index: 0,
    start: 0,
    kind: Kind::Nonnegative(0),
    block: 0,
    entries: 0,
    count: 0,
    blocks: 0,
};

// A refusal: its number alone.
fn alone(refusal: Refusal) -> Place
    ensures { result ≡ alone (number_of refusal) }
{
    Place {
        no: u8::from(refusal),
        ..NOWHERE
    }
}

// The refusals of a record that stands behind `total` entries.
pub fn check_record(total: usize, c: Cone) -> Result<(), Refusal>
    ensures { number_in result ≡ bad_record total c }
{
    let n = c.kind.dim();
    answers::check_dimension(c.kind.least_dim(), n)?;
    if c.start != total {
        return Err(Refusal::Start);
    }
    if 65536 - n < total {
        return Err(Refusal::Size);
    }
    Ok(())
}

// The walk for cone k of a list of so many cones, before its first record: none is counted yet.
pub fn place_opening(cones: usize, k: usize) -> Place
    ensures { result ≡ place_opening cones k }
{
    if 256 < cones {
        return alone(Refusal::Size);
    }
    Place {
        index: k,
        ..NOWHERE
    }
}

// The walk over one record more.
pub fn place_further(p: Place, c: Cone) -> Place
    requires { Going p }
    ensures { result ≡ place_further p c }
{
    if p.no != 0 {
        return p;
    }
    if let Err(refusal) = check_record(p.entries, c) {
        return alone(refusal);
    }
    let kind = c.kind;
    let seen = Place {
        entries: p.entries + kind.dim(),
        count: p.count + 1,
        blocks: p.blocks + kind.block_dim(),
        ..p
    };
    if p.count == p.index {
        return Place {
            start: p.entries,
            kind,
            block: p.blocks,
            ..seen
        };
    }
    seen
}

// The walk behind its last record: the cone is in the list, or it is not.
pub fn place_closing(p: Place) -> Place
    ensures { result ≡ place_closing p }
{
    if (p.no != 0) | (p.index < p.count) {
        p
    } else {
        alone(Refusal::Cone)
    }
}
