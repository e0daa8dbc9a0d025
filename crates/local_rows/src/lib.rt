// A program's own row of cones: an array of records, of which the first so many are lent as the list (document 01, "The list and its buffers").
// Ported from nothing.
#![tactic(auto)]

ghost use Rattle.std.specs.Prelude.{◌≡◌, take};
ghost use Rattle.conelist.specs.Layout.{place_of};

use conelist::{Cone, Place};

// The array's first so many records, for a call over `&[Cone]`: all, where more are asked for than it holds.
pub fn front<const N: usize>(list: &[Cone; N], cones: usize) -> &[Cone]
    ensures { result.now ≡ take cones list.now }
{
    let few = cones.min(N);
    &list[..few]
}

// Where cone k of the first so many lies.
pub fn place_in<const N: usize>(list: &[Cone; N], cones: usize, k: usize) -> Place
    ensures { result ≡ place_of (take cones list.now) k }
{
    conewalk::place_of(front(list, cones), k)
}
