// A cone's mark (document 02, item 4): a small whole number for each cone, beside η and d. 0 is Fresh, 1 Identity, 2 Scaled, and any other counts as
// Fresh. Which calls an unfit mark refuses, with 8, behind all other refusals; and how a scaling's answer sets it. Of our own; nothing is ported.
#![tactic(auto, using(std::proofs::lemmas::Bool::Decides::nat_tests), unfolding(crate::specs::Mark::read_mark, crate::specs::Mark::unset, crate::specs::Mark::unscaled, crate::specs::Mark::offset_unscaled))]

ghost use Rattle.std.specs.Prelude.{◌<◌, ◌≡◌, cond, length, get_or, set};
ghost use Rattle.answers.specs.Refusal.{number_in};
ghost use Rattle.marks.specs.Mark.{IsMark, IsMarkNumber, read_mark, scaled_mark, unset, unscaled, offset_unscaled};

use answers::Refusal;
use conelist::{Kind, Place};

#[derive(Clone, Copy, Debug, PartialEq, Eq)]
pub enum Mark {
    Fresh,
    Identity,
    Scaled,
}

impl From<u8> for Mark {
    ghost from_gives = { IsMark };

    fn from(n: u8) -> Mark {
        match n {
            1 => Mark::Identity,
            2 => Mark::Scaled,
            _ => Mark::Fresh,
        }
    }
}

impl From<Mark> for u8 {
    ghost from_gives = { IsMarkNumber };

    fn from(mark: Mark) -> u8 {
        match mark {
            Mark::Fresh => 0,
            Mark::Identity => 1,
            Mark::Scaled => 2,
        }
    }
}

// The cone's own mark; Fresh past the end, where 5 ranks before.
fn mark_of(p: Place, marks: &[u8]) -> Mark
    ensures { result ≡ read_mark (get_or marks.now p.index 0) }
{
    match marks.get(p.index) {
        Some(n) => Mark::from(*n),
        None => Mark::Fresh,
    }
}

// Refuses a call that reads w, η or d, where nothing has set them. A mark's refusal ranks behind all others, so this stands last.
pub fn check_set(p: Place, marks: &[u8]) -> Result<(), Refusal>
    ensures { number_in result ≡ unset (get_or marks.now p.index 0) }
{
    match mark_of(p, marks) {
        Mark::Fresh => Err(Refusal::Mark),
        Mark::Identity | Mark::Scaled => Ok(()),
    }
}

// Refuses one that reads lambda, where no true scaling has set it: identity scaling leaves lambda.
pub fn check_scaled(p: Place, marks: &[u8]) -> Result<(), Refusal>
    ensures { number_in result ≡ unscaled (get_or marks.now p.index 0) }
{
    match mark_of(p, marks) {
        Mark::Scaled => Ok(()),
        Mark::Fresh | Mark::Identity => Err(Refusal::Mark),
    }
}

// The same of the offset: that of a nonnegative cone reads no part of the scaling.
pub fn check_offset(p: Place, marks: &[u8]) -> Result<(), Refusal>
    ensures { number_in result ≡ offset_unscaled p.kind (get_or marks.now p.index 0) }
{
    match p.kind {
        Kind::Nonnegative(n) => Ok(()),
        Kind::SecondOrder(n) => check_scaled(p, marks),
    }
}

// Behind a scaling of cone k that answered so: a true sets Scaled, a false keeps the mark.
pub fn set_scaled(marks: &mut [u8], k: usize, truth: bool)
    requires { k < length marks.old }
    ensures { marks.new ≡ set marks.old k (cond truth scaled_mark (get_or marks.old k 0)) }
{
    if truth {
        marks[k] = u8::from(Mark::Scaled);
    }
}
