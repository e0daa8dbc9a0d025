// Each call once, with its parameters in order, told: the answer, then what the slices hold that it writes. Of our own; nothing is ported.
//
// What a call reads is lent of the numbers of all the words, its marks of theirs; each slice that it writes, of a copy of its own. A call has
// the file's number (docs/CASES.md), and a match the calls of one form; a table of them would need one type of all forms.
use crate::case::Case;
use answers::{Refusal, StepPair};
use std::io;
use std::io::Write;

// ---- a call that writes nothing: its answer

fn number(c: &Case) -> f64 {
    match c.call {
        0 => root::sqrt(c.a),
        1 => extrema::least(c.a, c.b),
        _ => extrema::greatest(c.a, c.b),
    }
}

fn reads_one<W: Write>(out: &mut W, c: &Case, z: &[f64]) -> io::Result<()> {
    match c.call {
        0x100 => case_answers::answer(out, soc_units::soc_margins(z)),
        0x200 => case_answers::answer(out, nn_units::nn_margins(z)),
        0x300 => case_answers::answer(out, list_margins::margins_at(c.place, z)),
        0x111 => case_answers::answer(out, standing::soc_standing(z)),
        0x211 => case_answers::answer(out, standing::nn_standing(z)),
        0x311 => case_answers::answer(out, list_standing::standing_at(c.place, z)),
        0x113 => case_answers::answer(out, soc_residual::soc_residual(z)),
        _ => case_answers::answer(out, soc_residual::sqrt_soc_residual(z)),
    }
}

// The second slice is a direction, or eta; the second-order cone is lent eta as a number.
fn reads_two<W: Write>(out: &mut W, c: &Case, x: &[f64], y: &[f64], eta: f64) -> io::Result<()> {
    match c.call {
        0x106 => case_answers::square(out, soc_square::soc_square_hs(x, &eta)),
        0x112 => case_answers::answer(out, soc_step::soc_step(x, y, c.a)),
        0x212 => case_answers::answer(out, nn_step::nn_step(x, y, c.a)),
        _ => case_answers::answer(out, soc_residual::soc_residual_shifted(x, y, c.a)),
    }
}

fn steps(c: &Case, dz: &[f64], ds: &[f64], z: &[f64], s: &[f64]) -> Result<StepPair, Refusal> {
    match c.call {
        0x10b => soc_step::soc_step_length(dz, ds, z, s, c.a),
        0x20b => nn_step::nn_step_length(dz, ds, z, s, c.a),
        0x312 => whole_step::list_step_length(c.row, dz, ds, z, s, c.a),
        _ => list_step::step_length_at(c.place, dz, ds, z, s, c.a),
    }
}

fn reads_four<W: Write>(out: &mut W, c: &Case, numbers: &[f64; 1400]) -> io::Result<()> {
    case_answers::answer(
        out,
        steps(
            c,
            c.part(numbers, 1),
            c.part(numbers, 2),
            c.part(numbers, 3),
            c.part(numbers, 4),
        ),
    )
}

fn list_square<W: Write>(out: &mut W, c: &Case, numbers: &[f64; 1400]) -> io::Result<()> {
    let mut marks = [0u8; 1400];
    c.entries(&mut marks);
    case_answers::square(
        out,
        list_square::square_hs_at(
            c.place,
            c.part(numbers, 1),
            c.part(numbers, 2),
            c.part(&marks, 3),
        ),
    )
}

// ---- a call that writes one slice: first by how many it reads

fn from_none(c: &Case, z: &mut [f64]) -> Result<(), Refusal> {
    match c.call {
        0x101 => soc_units::soc_scaled_unit_shift(z, c.a),
        0x201 => nn_units::nn_scaled_unit_shift(z, c.a),
        0x203 => nn_identity::nn_set_identity_scaling(z),
        _ => list_shifts::scaled_unit_shift_at(c.place, z, c.a),
    }
}

fn from_one(c: &Case, x: &mut [f64], y: &[f64]) -> Result<(), Refusal> {
    match c.call {
        0x108 => soc_jordan::soc_affine_ds(x, y),
        0x205 => nn_blocks::nn_get_hs(x, y),
        _ => nn_jordan::nn_affine_ds(x, y),
    }
}

fn nonnegative_from_two(c: &Case, x: &mut [f64], y: &[f64], z: &[f64]) -> Result<(), Refusal> {
    match c.call {
        0x207 => nn_mul_hs::nn_mul_hs(x, y, z),
        0x20a => nn_offset::nn_ds_from_dz_offset(x, y, z),
        0x20c => nn_products::nn_mul_w(x, y, c.a, c.b, z),
        0x20d => nn_products::nn_mul_winv(x, y, c.a, c.b, z),
        0x20e => nn_jordan::nn_circ_op(x, y, z),
        0x20f => nn_inverse::nn_inv_circ_op(x, y, z),
        _ => nn_inverse::nn_lambda_inv_circ_op(x, y, z),
    }
}

fn from_two(c: &Case, x: &mut [f64], y: &[f64], z: &[f64]) -> Result<(), Refusal> {
    match c.call {
        0x10e => soc_jordan::soc_circ_op(x, y, z),
        0x10f => soc_inverse::soc_inv_circ_op(x, y, z),
        0x110 => soc_inverse::soc_lambda_inv_circ_op(x, y, z),
        0x30e => list_jordan::circ_op_at(c.place, x, y, z),
        0x30f => list_jordan::inv_circ_op_at(c.place, x, y, z),
        _ => nonnegative_from_two(c, x, y, z),
    }
}

// The second-order cone is lent numbers: eta, or eta and d.
fn second_order_from_three(
    c: &Case,
    y: &mut [f64],
    x: &[f64],
    w: &[f64],
    eta: f64,
    last: f64,
) -> Result<(), Refusal> {
    match c.call {
        0x105 => soc_blocks::soc_get_hs(y, x, &eta, &last),
        0x107 => soc_mul_hs::soc_mul_hs(y, x, w, &last),
        0x10c => soc_products::soc_mul_w(y, x, c.a, c.b, w, &last),
        _ => soc_products::soc_mul_winv(y, x, c.a, c.b, w, &last),
    }
}

fn from_three(
    c: &Case,
    numbers: &[f64; 1400],
    y: &mut [f64],
    x: &[f64],
    w: &[f64],
) -> Result<(), Refusal> {
    let eta = c.number(numbers, 3);
    second_order_from_three(c, y, x, w, eta, c.number(numbers, 4))
}

fn one(c: &Case, numbers: &[f64; 1400], x: &mut [f64]) -> Result<(), Refusal> {
    let y = c.part(numbers, 2);
    let z = c.part(numbers, 3);
    match c.shape.slices {
        1 => from_none(c, x),
        2 => from_one(c, x, y),
        3 => from_two(c, x, y, z),
        _ => from_three(c, numbers, x, y, z),
    }
}

fn writes_one<W: Write>(out: &mut W, c: &Case, numbers: &[f64; 1400]) -> io::Result<()> {
    let mut own = *numbers;
    case_answers::answer(out, one(c, numbers, c.part_mut(&mut own, 1)))?;
    c.tell(out, &own, 1)
}

fn second_order_offset<W: Write>(out: &mut W, c: &Case, numbers: &[f64; 1400]) -> io::Result<()> {
    let mut own1 = *numbers;
    let eta = c.number(numbers, 6);
    case_answers::answer(
        out,
        soc_offset::soc_ds_from_dz_offset(
            c.part_mut(&mut own1, 1),
            c.part(numbers, 2),
            c.part(numbers, 3),
            c.part(numbers, 4),
            c.part(numbers, 5),
            &eta,
        ),
    )?;
    c.tell(out, &own1, 1)
}

// One cone of a list, whose mark is read.
fn list_one(c: &Case, numbers: &[f64; 1400], marks: &[u8], x: &mut [f64]) -> Result<(), Refusal> {
    let y = c.part(numbers, 2);
    let z = c.part(numbers, 3);
    let w = c.part(numbers, 4);
    match c.call {
        0x305 => list_blocks::get_hs_at(c.place, x, y, z, w, marks),
        0x307 => list_mul_hs::mul_hs_at(c.place, x, y, z, w, marks),
        0x308 => list_jordan::affine_ds_at(c.place, x, y, marks),
        0x30a => list_shifts::ds_from_dz_offset_at(
            c.place,
            x,
            y,
            z,
            w,
            c.part(numbers, 5),
            c.part(numbers, 6),
            marks,
        ),
        0x30c => list_products::mul_w_at(c.place, x, y, c.a, c.b, z, w, marks),
        0x30d => list_products::mul_winv_at(c.place, x, y, c.a, c.b, z, w, marks),
        _ => list_jordan::lambda_inv_circ_op_at(c.place, x, y, z, marks),
    }
}

fn list_writes_one<W: Write>(out: &mut W, c: &Case, numbers: &[f64; 1400]) -> io::Result<()> {
    let mut own1 = *numbers;
    let mut marks = [0u8; 1400];
    c.entries(&mut marks);
    case_answers::answer(
        out,
        list_one(
            c,
            numbers,
            c.part(&marks, c.shape.slices),
            c.part_mut(&mut own1, 1),
        ),
    )?;
    c.tell(out, &own1, 1)
}

// ---- a call that writes several

fn units(c: &Case, z: &mut [f64], s: &mut [f64]) -> Result<(), Refusal> {
    match c.call {
        0x102 => soc_units::soc_unit_initialization(z, s),
        0x202 => nn_units::nn_unit_initialization(z, s),
        _ => list_units::unit_initialization_at(c.place, z, s),
    }
}

fn writes_two<W: Write>(out: &mut W, c: &Case, numbers: &[f64; 1400]) -> io::Result<()> {
    let mut own1 = *numbers;
    let mut own2 = own1;
    case_answers::answer(
        out,
        units(c, c.part_mut(&mut own1, 1), c.part_mut(&mut own2, 2)),
    )?;
    c.tell(out, &own1, 1)?;
    c.tell(out, &own2, 2)
}

fn second_order_combined<W: Write>(out: &mut W, c: &Case, numbers: &[f64; 1400]) -> io::Result<()> {
    let mut own1 = *numbers;
    let mut own2 = own1;
    let mut own3 = own1;
    let eta = c.number(numbers, 5);
    case_answers::answer(
        out,
        soc_combined::soc_combined_ds_shift(
            c.part_mut(&mut own1, 1),
            c.part_mut(&mut own2, 2),
            c.part_mut(&mut own3, 3),
            c.a,
            c.part(numbers, 4),
            &eta,
        ),
    )?;
    c.tell(out, &own1, 1)?;
    c.tell(out, &own2, 2)?;
    c.tell(out, &own3, 3)
}

fn nonnegative_combined<W: Write>(out: &mut W, c: &Case, numbers: &[f64; 1400]) -> io::Result<()> {
    let mut own1 = *numbers;
    let mut own2 = own1;
    let mut own3 = own1;
    case_answers::answer(
        out,
        nn_combined::nn_combined_ds_shift(
            c.part_mut(&mut own1, 1),
            c.part_mut(&mut own2, 2),
            c.part_mut(&mut own3, 3),
            c.a,
            c.part(numbers, 4),
        ),
    )?;
    c.tell(out, &own1, 1)?;
    c.tell(out, &own2, 2)?;
    c.tell(out, &own3, 3)
}

fn list_combined<W: Write>(out: &mut W, c: &Case, numbers: &[f64; 1400]) -> io::Result<()> {
    let mut own1 = *numbers;
    let mut own2 = own1;
    let mut own3 = own1;
    let mut marks = [0u8; 1400];
    c.entries(&mut marks);
    case_answers::answer(
        out,
        list_shifts::combined_ds_shift_at(
            c.place,
            c.part_mut(&mut own1, 1),
            c.part_mut(&mut own2, 2),
            c.part_mut(&mut own3, 3),
            c.a,
            c.part(numbers, 4),
            c.part(numbers, 5),
            c.part(&marks, 6),
        ),
    )?;
    c.tell(out, &own1, 1)?;
    c.tell(out, &own2, 2)?;
    c.tell(out, &own3, 3)
}

fn second_order_identity<W: Write>(out: &mut W, c: &Case, numbers: &[f64; 1400]) -> io::Result<()> {
    let mut own1 = *numbers;
    let mut own2 = own1;
    let mut own3 = own1;
    let mut eta = c.number(numbers, 4);
    let mut d = c.number(numbers, 5);
    case_answers::answer(
        out,
        soc_identity::soc_set_identity_scaling(
            c.part_mut(&mut own1, 1),
            c.part_mut(&mut own2, 2),
            c.part_mut(&mut own3, 3),
            &mut eta,
            &mut d,
        ),
    )?;
    c.tell(out, &own1, 1)?;
    c.tell(out, &own2, 2)?;
    c.tell(out, &own3, 3)?;
    case_answers::contents(out, &[eta])?;
    case_answers::contents(out, &[d])
}

fn list_identity<W: Write>(out: &mut W, c: &Case, numbers: &[f64; 1400]) -> io::Result<()> {
    let mut own1 = *numbers;
    let mut own2 = own1;
    let mut own3 = own1;
    let mut own4 = own1;
    let mut own5 = own1;
    let mut own6 = [0u8; 1400];
    c.entries(&mut own6);
    case_answers::answer(
        out,
        list_identity::set_identity_scaling_at(
            c.place,
            c.part_mut(&mut own1, 1),
            c.part_mut(&mut own2, 2),
            c.part_mut(&mut own3, 3),
            c.part_mut(&mut own4, 4),
            c.part_mut(&mut own5, 5),
            c.part_mut(&mut own6, 6),
        ),
    )?;
    c.tell(out, &own1, 1)?;
    c.tell(out, &own2, 2)?;
    c.tell(out, &own3, 3)?;
    c.tell(out, &own4, 4)?;
    c.tell(out, &own5, 5)?;
    c.tell(out, &own6, 6)
}

// An update of a scaling reads two slices first.
fn second_order_scaling<W: Write>(out: &mut W, c: &Case, numbers: &[f64; 1400]) -> io::Result<()> {
    let mut own3 = *numbers;
    let mut own4 = own3;
    let mut own5 = own3;
    let mut own6 = own3;
    let mut eta = c.number(numbers, 7);
    let mut d = c.number(numbers, 8);
    case_answers::answer(
        out,
        soc_scaling::soc_update_scaling(
            c.part(numbers, 1),
            c.part(numbers, 2),
            c.part_mut(&mut own3, 3),
            c.part_mut(&mut own4, 4),
            c.part_mut(&mut own5, 5),
            c.part_mut(&mut own6, 6),
            &mut eta,
            &mut d,
        ),
    )?;
    c.tell(out, numbers, 1)?;
    c.tell(out, numbers, 2)?;
    c.tell(out, &own3, 3)?;
    c.tell(out, &own4, 4)?;
    c.tell(out, &own5, 5)?;
    c.tell(out, &own6, 6)?;
    case_answers::contents(out, &[eta])?;
    case_answers::contents(out, &[d])
}

fn nonnegative_scaling<W: Write>(out: &mut W, c: &Case, numbers: &[f64; 1400]) -> io::Result<()> {
    let mut own3 = *numbers;
    let mut own4 = own3;
    case_answers::answer(
        out,
        nn_scaling::nn_update_scaling(
            c.part(numbers, 1),
            c.part(numbers, 2),
            c.part_mut(&mut own3, 3),
            c.part_mut(&mut own4, 4),
        ),
    )?;
    c.tell(out, numbers, 1)?;
    c.tell(out, numbers, 2)?;
    c.tell(out, &own3, 3)?;
    c.tell(out, &own4, 4)
}

// Of one cone of a list, or of the whole list.
fn scaled<W: Write>(
    out: &mut W,
    c: &Case,
    s: &[f64],
    z: &[f64],
    w: &mut [f64],
    lambda: &mut [f64],
    u: &mut [f64],
    v: &mut [f64],
    eta: &mut [f64],
    d: &mut [f64],
    marks: &mut [u8],
) -> io::Result<()> {
    if c.call == 0x313 {
        case_answers::answer(
            out,
            whole_scaling::list_update_scaling(c.row, s, z, w, lambda, u, v, eta, d, marks),
        )
    } else {
        case_answers::answer(
            out,
            list_scaling::update_scaling_at(c.place, s, z, w, lambda, u, v, eta, d, marks),
        )
    }
}

fn list_scaling<W: Write>(out: &mut W, c: &Case, numbers: &[f64; 1400]) -> io::Result<()> {
    let mut own3 = *numbers;
    let mut own4 = own3;
    let mut own5 = own3;
    let mut own6 = own3;
    let mut own7 = own3;
    let mut own8 = own3;
    let mut own9 = [0u8; 1400];
    c.entries(&mut own9);
    scaled(
        out,
        c,
        c.part(numbers, 1),
        c.part(numbers, 2),
        c.part_mut(&mut own3, 3),
        c.part_mut(&mut own4, 4),
        c.part_mut(&mut own5, 5),
        c.part_mut(&mut own6, 6),
        c.part_mut(&mut own7, 7),
        c.part_mut(&mut own8, 8),
        c.part_mut(&mut own9, 9),
    )?;
    c.tell(out, numbers, 1)?;
    c.tell(out, numbers, 2)?;
    c.tell(out, &own3, 3)?;
    c.tell(out, &own4, 4)?;
    c.tell(out, &own5, 5)?;
    c.tell(out, &own6, 6)?;
    c.tell(out, &own7, 7)?;
    c.tell(out, &own8, 8)?;
    c.tell(out, &own9, 9)
}

// ---- each by what it writes

fn writes_three<W: Write>(out: &mut W, c: &Case, numbers: &[f64; 1400]) -> io::Result<()> {
    match c.call {
        0x109 => second_order_combined(out, c, numbers),
        0x209 => nonnegative_combined(out, c, numbers),
        _ => list_combined(out, c, numbers),
    }
}

fn writes_most<W: Write>(out: &mut W, c: &Case, numbers: &[f64; 1400]) -> io::Result<()> {
    match c.call {
        0x103 => second_order_identity(out, c, numbers),
        0x303 => list_identity(out, c, numbers),
        0x104 => second_order_scaling(out, c, numbers),
        _ => list_scaling(out, c, numbers),
    }
}

fn writes_none<W: Write>(out: &mut W, c: &Case, numbers: &[f64; 1400]) -> io::Result<()> {
    let x = c.part(numbers, 1);
    let y = c.part(numbers, 2);
    match c.shape.slices {
        0 => case_answers::answer(out, Ok(number(c))),
        1 => reads_one(out, c, x),
        2 => reads_two(out, c, x, y, c.number(numbers, 2)),
        3 => list_square(out, c, numbers),
        _ => reads_four(out, c, numbers),
    }
}

fn run<W: Write>(out: &mut W, c: &Case, numbers: &[f64; 1400]) -> io::Result<()> {
    match c.shape.written {
        0 => writes_none(out, c, numbers),
        1 => if c.shape.marked {
            list_writes_one(out, c, numbers)
        } else if c.shape.slices == 6 {
            second_order_offset(out, c, numbers)
        } else {
            writes_one(out, c, numbers)
        },
        2 => if c.shape.slices == 2 {
            writes_two(out, c, numbers)
        } else {
            nonnegative_scaling(out, c, numbers)
        },
        3 => writes_three(out, c, numbers),
        _ => writes_most(out, c, numbers),
    }
}

// The marks as they were read.
fn tell_marks<W: Write>(out: &mut W, c: &Case) -> io::Result<()> {
    let mut marks = [0u8; 1400];
    c.entries(&mut marks);
    c.tell(out, &marks, c.shape.slices)
}

// A case run, and told in one line: the slices that the call only reads are told as they were read.
pub fn made<W: Write>(out: &mut W, c: &Case) -> io::Result<()> {
    let mut numbers = [0.0; 1400];
    c.entries(&mut numbers);
    run(out, c, &numbers)?;
    let slices = c.shape.slices;
    // an update of a scaling has told all its slices, any other call those that it writes, which come first
    let told = if (c.call % 256 == 4) | (c.call == 0x313) {
        slices
    } else {
        c.shape.written
    };
    for k in told..slices {
        if c.shape.marked & (k + 1 == slices) {
            tell_marks(out, c)?;
        } else {
            c.tell(out, &numbers, k + 1)?;
        }
    }
    writeln!(out)
}
