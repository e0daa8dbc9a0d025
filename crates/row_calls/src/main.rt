// Each call over a lent row of cones, run once: the program lends the front of a row of its own (`local_rows`), three cones of which the first is
// nonnegative, the second dense and the third sparse. A line is the call, the cone, the answer and all that the call left in each buffer that
// it may write. Of our own; nothing is ported.
#![tactic(auto)]

use answers::{Refusal, Row};
use conelist::{Cone, Kind};
use std::io;
use std::io::{BufWriter, Write};

// ---- how an answer is written

fn begin<W: Write>(out: &mut W, call: &str, k: usize) -> io::Result<()> {
    write!(out, "{call:<40}{k}: ")
}

fn say<W: Write>(out: &mut W, call: &str, k: usize, a: Result<(), Refusal>) -> io::Result<()> {
    begin(out, call, k)?;
    match a {
        Ok(()) => write!(out, "done"),
        Err(refusal) => write!(out, "{refusal}"),
    }
}

fn say_scaling<W: Write>(
    out: &mut W,
    call: &str,
    k: usize,
    a: Result<bool, Refusal>,
) -> io::Result<()> {
    begin(out, call, k)?;
    match a {
        Ok(t) => write!(out, "{t}"),
        Err(refusal) => write!(out, "{refusal}"),
    }
}

fn two<W: Write>(out: &mut W, a: f64, b: f64) -> io::Result<()> {
    write!(out, "{} {}", show::spell(a), show::spell(b))
}

fn entry<W: Write>(out: &mut W, x: f64) -> io::Result<()> {
    write!(out, " {}", show::spell(x))
}

// What a slice holds, behind a bar.
fn holds<W: Write>(out: &mut W, x: &[f64]) -> io::Result<()> {
    write!(out, " |")?;
    for y in x {
        entry(out, *y)?;
    }
    Ok(())
}

// The line of a call that writes one buffer.
fn line<W: Write>(
    out: &mut W,
    call: &str,
    k: usize,
    a: Result<(), Refusal>,
    x: &[f64],
) -> io::Result<()> {
    say(out, call, k, a)?;
    holds(out, x)?;
    writeln!(out)
}

// The three cones' marks, and the line's end.
fn marked<W: Write>(out: &mut W, marks: [u8; 3]) -> io::Result<()> {
    let [first, second, third] = marks;
    writeln!(out, " | {first} {second} {third}")
}

// Five buffers.
fn five<W: Write>(
    out: &mut W,
    a: &[f64],
    b: &[f64],
    c: &[f64],
    d: &[f64],
    e: &[f64],
) -> io::Result<()> {
    holds(out, a)?;
    holds(out, b)?;
    holds(out, c)?;
    holds(out, d)?;
    holds(out, e)
}

fn holds_row<W: Write>(out: &mut W, r: &Row) -> io::Result<()> {
    holds(out, &r.entries)
}

// ---- the list, and what it is called with

fn row() -> [Cone; 257] {
    let mut list = [Cone {
        start: 0,
        kind: Kind::Nonnegative(2),
    }; 257];
    list[1] = Cone {
        start: 2,
        kind: Kind::SecondOrder(3),
    };
    list[2] = Cone {
        start: 5,
        kind: Kind::SecondOrder(5),
    };
    list
}

fn first_ten() -> [f64; 10] {
    [4.0, 9.0, 5.0, 3.0, 0.0, 6.0, 3.0, 4.0, 0.0, 0.0]
}

fn second_ten() -> [f64; 10] {
    [1.0, 4.0, 5.0, 0.0, -3.0, 6.0, 0.0, -3.0, 0.0, 4.0]
}

fn scale_ten() -> [f64; 10] {
    [2.0, 1.5, 1.25, 0.75, 0.0, 1.25, 0.0, 0.75, 0.0, 0.0]
}

fn point_ten() -> [f64; 10] {
    [2.0, 6.0, 4.0, 0.0, 1.0, 5.0, 1.0, 0.0, 0.0, 2.0]
}

// ---- the calls

fn margins<W: Write>(out: &mut W, first: &[f64]) -> io::Result<()> {
    begin(out, "margins", 2)?;
    match list_calls::margins(local_rows::front(&row(), 3), 2, first) {
        Ok(m) => two(out, m.alpha, m.beta)?,
        Err(refusal) => write!(out, "{refusal}")?,
    }
    writeln!(out)
}

fn scaled_unit_shift<W: Write>(out: &mut W) -> io::Result<()> {
    let mut z = first_ten();
    let a = list_calls::scaled_unit_shift(local_rows::front(&row(), 3), 0, &mut z, 0.5);
    line(out, "scaled_unit_shift", 0, a, &z)
}

fn unit_initialization<W: Write>(out: &mut W) -> io::Result<()> {
    let mut z = first_ten();
    let mut s = second_ten();
    let a = list_calls::unit_initialization(local_rows::front(&row(), 3), 1, &mut z, &mut s);
    say(out, "unit_initialization", 1, a)?;
    holds(out, &z)?;
    holds(out, &s)?;
    writeln!(out)
}

fn set_identity_scaling<W: Write>(out: &mut W) -> io::Result<()> {
    let mut w = scale_ten();
    let mut u = first_ten();
    let mut v = second_ten();
    let mut eta = [3.0; 3];
    let mut d = [4.0; 3];
    let mut marks = [0; 3];
    let a = list_calls::set_identity_scaling(
        local_rows::front(&row(), 3),
        2,
        &mut w,
        &mut u,
        &mut v,
        &mut eta,
        &mut d,
        &mut marks,
    );
    say(out, "set_identity_scaling", 2, a)?;
    five(out, &w, &u, &v, &eta, &d)?;
    marked(out, marks)
}

fn update_scaling<W: Write>(out: &mut W, first: &[f64], second: &[f64]) -> io::Result<()> {
    let mut w = scale_ten();
    let mut lambda = point_ten();
    let mut u = first_ten();
    let mut v = second_ten();
    let mut eta = [3.0; 3];
    let mut d = [4.0; 3];
    let mut marks = [0; 3];
    let a = list_calls::update_scaling(
        local_rows::front(&row(), 3),
        2,
        first,
        second,
        &mut w,
        &mut lambda,
        &mut u,
        &mut v,
        &mut eta,
        &mut d,
        &mut marks,
    );
    say_scaling(out, "update_scaling", 2, a)?;
    holds(out, &w)?;
    five(out, &lambda, &u, &v, &eta, &d)?;
    marked(out, marks)
}

fn get_hs<W: Write>(out: &mut W, scale: &[f64]) -> io::Result<()> {
    let mut hs = [7.0; 13];
    let a = list_calls::get_hs(
        local_rows::front(&row(), 3),
        1,
        &mut hs,
        scale,
        &[2.0; 3],
        &[0.5; 3],
        &[1; 3],
    );
    line(out, "get_hs", 1, a, &hs)
}

fn square_hs<W: Write>(out: &mut W, scale: &[f64]) -> io::Result<()> {
    begin(out, "square_hs", 1)?;
    let got = list_calls::square_hs(local_rows::front(&row(), 3), 1, scale, &[2.0; 3], &[1; 3]);
    write!(out, "{}", got.no)?;
    for row in &got.rows {
        holds_row(out, row)?;
    }
    writeln!(out)
}

fn mul_w<W: Write>(out: &mut W, second: &[f64], scale: &[f64]) -> io::Result<()> {
    let mut y = first_ten();
    let a = list_calls::mul_w(
        local_rows::front(&row(), 3),
        2,
        &mut y,
        second,
        2.0,
        3.0,
        scale,
        &[2.0; 3],
        &[1; 3],
    );
    line(out, "mul_w", 2, a, &y)
}

fn mul_winv<W: Write>(out: &mut W, second: &[f64], scale: &[f64]) -> io::Result<()> {
    let mut y = first_ten();
    let a = list_calls::mul_winv(
        local_rows::front(&row(), 3),
        1,
        &mut y,
        second,
        2.0,
        3.0,
        scale,
        &[2.0; 3],
        &[1; 3],
    );
    line(out, "mul_winv", 1, a, &y)
}

fn mul_hs<W: Write>(out: &mut W, second: &[f64], scale: &[f64]) -> io::Result<()> {
    let mut y = point_ten();
    let a = list_calls::mul_hs(
        local_rows::front(&row(), 3),
        0,
        &mut y,
        second,
        scale,
        &[2.0; 3],
        &[1; 3],
    );
    line(out, "mul_hs", 0, a, &y)
}

fn circ_op<W: Write>(out: &mut W, first: &[f64], second: &[f64]) -> io::Result<()> {
    let mut x = point_ten();
    let a = list_calls::circ_op(local_rows::front(&row(), 3), 1, &mut x, first, second);
    line(out, "circ_op", 1, a, &x)
}

fn affine_ds<W: Write>(out: &mut W, point: &[f64]) -> io::Result<()> {
    let mut ds = first_ten();
    let a = list_calls::affine_ds(local_rows::front(&row(), 3), 2, &mut ds, point, &[2; 3]);
    line(out, "affine_ds", 2, a, &ds)
}

fn inv_circ_op<W: Write>(out: &mut W, first: &[f64], second: &[f64]) -> io::Result<()> {
    let mut x = point_ten();
    let a = list_calls::inv_circ_op(local_rows::front(&row(), 3), 0, &mut x, first, second);
    line(out, "inv_circ_op", 0, a, &x)
}

fn lambda_inv_circ_op<W: Write>(out: &mut W, second: &[f64], point: &[f64]) -> io::Result<()> {
    let mut x = first_ten();
    let a = list_calls::lambda_inv_circ_op(
        local_rows::front(&row(), 3),
        1,
        &mut x,
        second,
        point,
        &[2; 3],
    );
    line(out, "lambda_inv_circ_op", 1, a, &x)
}

fn ds_from_dz_offset<W: Write>(
    out: &mut W,
    first: &[f64],
    second: &[f64],
    scale: &[f64],
    point: &[f64],
) -> io::Result<()> {
    let mut ds = first_ten();
    let a = list_calls::ds_from_dz_offset(
        local_rows::front(&row(), 3),
        1,
        &mut ds,
        second,
        first,
        scale,
        point,
        &[2.0; 3],
        &[2; 3],
    );
    line(out, "ds_from_dz_offset", 1, a, &ds)
}

fn combined_ds_shift<W: Write>(out: &mut W, scale: &[f64]) -> io::Result<()> {
    let mut shift = point_ten();
    let mut step_z = first_ten();
    let mut step_s = second_ten();
    let a = list_calls::combined_ds_shift(
        local_rows::front(&row(), 3),
        2,
        &mut shift,
        &mut step_z,
        &mut step_s,
        0.5,
        scale,
        &[2.0; 3],
        &[1; 3],
    );
    say(out, "combined_ds_shift", 2, a)?;
    holds(out, &shift)?;
    holds(out, &step_z)?;
    holds(out, &step_s)?;
    writeln!(out)
}

fn step_length<W: Write>(out: &mut W, first: &[f64], second: &[f64]) -> io::Result<()> {
    begin(out, "step_length", 1)?;
    match list_calls::step_length(
        local_rows::front(&row(), 3),
        1,
        &[-1.0; 10],
        &[-2.0; 10],
        first,
        second,
        10.0,
    ) {
        Ok(pair) => two(out, pair.z, pair.s)?,
        Err(refusal) => write!(out, "{refusal}")?,
    }
    writeln!(out)
}

fn standing<W: Write>(out: &mut W, first: &[f64]) -> io::Result<()> {
    begin(out, "standing", 2)?;
    match list_calls::standing(local_rows::front(&row(), 3), 2, first) {
        Ok(s) => write!(out, "{s}")?,
        Err(refusal) => write!(out, "{refusal}")?,
    }
    writeln!(out)
}

fn calls<W: Write>(
    out: &mut W,
    first: &[f64],
    second: &[f64],
    scale: &[f64],
    point: &[f64],
) -> io::Result<()> {
    margins(out, first)?;
    scaled_unit_shift(out)?;
    unit_initialization(out)?;
    set_identity_scaling(out)?;
    update_scaling(out, first, second)?;
    get_hs(out, scale)?;
    square_hs(out, scale)?;
    mul_w(out, second, scale)?;
    mul_winv(out, second, scale)?;
    mul_hs(out, second, scale)?;
    circ_op(out, first, second)?;
    affine_ds(out, point)?;
    inv_circ_op(out, first, second)?;
    lambda_inv_circ_op(out, second, point)?;
    ds_from_dz_offset(out, first, second, scale, point)?;
    combined_ds_shift(out, scale)?;
    step_length(out, first, second)?;
    standing(out, first)
}

fn main(rt: HostRuntime) -> io::Result<()> {
    let mut out = BufWriter::new(rt.alloc(), io::writer(&rt))?;
    calls(
        &mut out,
        &first_ten(),
        &second_ten(),
        &scale_ten(),
        &point_ten(),
    )?;
    out.flush()
}
