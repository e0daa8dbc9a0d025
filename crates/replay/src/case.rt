// A case: what a line's words tell, and its slices, lent of its words' entries. Of our own; nothing is ported.
ghost use Rattle.std.specs.Prelude.{◌≤◌};

use case_answers::Values;
use case_words::Entry;
use cases::Fault;
use conelist::Place;
use std::io;
use std::io::Write;
use std::ops::Range;

// ---- the slices of a call

// How many slices a call takes, how many of them, the first ones, it writes, and how many numbers are lent to it, which are slices of one
// entry, the last ones; and whether the last slice is the marks.
#[derive(Clone, Copy)]
pub struct Shape {
    pub slices: usize,
    pub written: usize,
    pub lent: usize,
    pub marked: bool,
}

fn takes(slices: usize) -> Shape {
    Shape {
        slices,
        written: 0,
        lent: 0,
        marked: false,
    }
}

impl Shape {
    fn writes(self, written: usize) -> Shape {
        Shape { written, ..self }
    }

    fn lent(self, lent: usize) -> Shape {
        Shape { lent, ..self }
    }

    fn marked(self) -> Shape {
        Shape {
            marked: true,
            ..self
        }
    }
}

// Each operation by its number in docs/CASES.md.
fn second_order(operation: u64) -> Option<Shape> {
    Some(match operation {
        0x00 => takes(1), // margins
        0x01 => takes(1).writes(1), // scaled_unit_shift
        0x02 => takes(2).writes(2), // unit_initialization
        0x03 => takes(5).writes(5).lent(2), // set_identity_scaling
        0x04 => takes(8).writes(6).lent(2), // update_scaling
        0x05 => takes(4).writes(1).lent(2), // get_hs
        0x06 => takes(2).lent(1), // square_hs
        0x07 => takes(4).writes(1).lent(1), // mul_hs
        0x08 => takes(2).writes(1), // affine_ds
        0x09 => takes(5).writes(3).lent(1), // combined_ds_shift
        0x0a => takes(6).writes(1).lent(1), // ds_from_dz_offset
        0x0b => takes(4), // step_length
        0x0c => takes(4).writes(1).lent(1), // mul_w
        0x0d => takes(4).writes(1).lent(1), // mul_winv
        0x0e => takes(3).writes(1), // circ_op
        0x0f => takes(3).writes(1), // inv_circ_op
        0x10 => takes(3).writes(1), // lambda_inv_circ_op
        0x11 => takes(1), // standing
        0x12 => takes(2), // step
        0x13 => takes(1), // residual
        0x14 => takes(2), // residual_shifted
        0x15 => takes(1), // sqrt_residual
        _ => return None,
    })
}

fn nonnegative(operation: u64) -> Option<Shape> {
    Some(match operation {
        0x00 => takes(1), // margins
        0x01 => takes(1).writes(1), // scaled_unit_shift
        0x02 => takes(2).writes(2), // unit_initialization
        0x03 => takes(1).writes(1), // set_identity_scaling
        0x04 => takes(4).writes(2), // update_scaling
        0x05 => takes(2).writes(1), // get_hs
        0x07 => takes(3).writes(1), // mul_hs
        0x08 => takes(2).writes(1), // affine_ds
        0x09 => takes(4).writes(3), // combined_ds_shift
        0x0a => takes(3).writes(1), // ds_from_dz_offset
        0x0b => takes(4), // step_length
        0x0c => takes(3).writes(1), // mul_w
        0x0d => takes(3).writes(1), // mul_winv
        0x0e => takes(3).writes(1), // circ_op
        0x0f => takes(3).writes(1), // inv_circ_op
        0x10 => takes(3).writes(1), // lambda_inv_circ_op
        0x11 => takes(1), // standing
        0x12 => takes(2), // step
        _ => return None,
    })
}

fn of_list(operation: u64) -> Option<Shape> {
    Some(match operation {
        0x00 => takes(1), // margins
        0x01 => takes(1).writes(1), // scaled_unit_shift
        0x02 => takes(2).writes(2), // unit_initialization
        0x03 => takes(6).writes(6).marked(), // set_identity_scaling
        0x04 => takes(9).writes(7).marked(), // update_scaling
        0x05 => takes(5).writes(1).marked(), // get_hs
        0x06 => takes(3).marked(), // square_hs
        0x07 => takes(5).writes(1).marked(), // mul_hs
        0x08 => takes(3).writes(1).marked(), // affine_ds
        0x09 => takes(6).writes(3).marked(), // combined_ds_shift
        0x0a => takes(7).writes(1).marked(), // ds_from_dz_offset
        0x0b => takes(4), // step_length
        0x0c => takes(5).writes(1).marked(), // mul_w
        0x0d => takes(5).writes(1).marked(), // mul_winv
        0x0e => takes(3).writes(1), // circ_op
        0x0f => takes(3).writes(1), // inv_circ_op
        0x10 => takes(4).writes(1).marked(), // lambda_inv_circ_op
        0x11 => takes(1), // standing
        0x12 => takes(4), // the whole list's step_length
        0x13 => takes(9).writes(7).marked(), // the whole list's update_scaling
        _ => return None,
    })
}

// Above the last two digits of a call's number stands whose it is: 0 the numbers', 1 the second-order cone's, 2 the nonnegative cone's, 3 a
// list's.
pub fn shape_of(call: u64) -> Result<Shape, Fault> {
    let operation = call % 256;
    let shape = match call / 256 {
        0 if operation < 3 => Some(takes(0)),
        1 => second_order(operation),
        2 => nonnegative(operation),
        3 => of_list(operation),
        _ => None,
    };
    shape.ok_or(Fault::NoSuchCall)
}

// ---- a case

// The call's number, the call's numbers, the row of records, the cone of it that is named, and the words of the call's slices. Whoever runs
// the call makes the words' numbers, and their marks where it takes them: a case that had both would pay for them at each copy.
#[derive(Clone, Copy)]
pub struct Case<'a> {
    pub call: u64,
    pub shape: Shape,
    pub a: f64,
    pub b: f64,
    pub row: &'a [[usize; 3]],
    pub place: Place,
    pub words: &'a [u64],
}

// The words are those of the call's slices, of which the last ones are lent numbers.
pub fn check(words: &[u64], shape: Shape) -> Result<(), Fault> {
    case_words::check_slices(words, shape.slices)?;
    for k in shape.slices.saturating_sub(shape.lent)..shape.slices {
        if case_words::nth(words, k + 1)?.length != 1 {
            return Err(Fault::NotOneEntry);
        }
    }
    Ok(())
}

impl Case<'_> {
    // Each word's entry, at its own place in an array that is lent; one that is handed back would be copied.
    pub fn entries<T: Entry>(&self, entries: &mut [T; 1400]) {
        if self.words.len() <= 1400 {
            case_words::entries(self.words, entries);
        }
    }

    // Where slice k lies among so many entries, counted from 1 on.
    fn range(&self, entries: usize, k: usize) -> Range<usize>
        ensures { (result.start ≤ result.end) × (result.end ≤ entries) }
    {
        match case_words::nth(self.words, k) {
            Ok(cut) if (cut.length <= cut.at) & (cut.at <= entries) => cut.at - cut.length..cut.at,
            _ => 0..0,
        }
    }

    // Slice k of the words' entries.
    pub fn part<'b, T>(&self, entries: &'b [T], k: usize) -> &'b [T] {
        let range = self.range(entries.len(), k);
        &entries[range.start..range.end]
    }

    // The same, to be written.
    pub fn part_mut<'b, T>(&self, entries: &'b mut [T], k: usize) -> &'b mut [T] {
        let range = self.range(entries.len(), k);
        &mut entries[range.start..range.end]
    }

    // The number that slice k is; 0 where it has no entry.
    pub fn number(&self, numbers: &[f64], k: usize) -> f64 {
        match self.part(numbers, k).first() {
            Some(number) => *number,
            None => 0.0,
        }
    }

    // What slice k of the entries holds is written.
    pub fn tell<W: Write, T: Values>(
        &self,
        out: &mut W,
        entries: &[T],
        k: usize,
    ) -> io::Result<()> {
        case_answers::contents(out, self.part(entries, k))
    }
}
