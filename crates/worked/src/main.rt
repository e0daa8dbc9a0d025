// Document 01's small examples, as document 02 changes them, one to a line, with what the code gives. Of
// our own; nothing is ported. A whole number is told by its digits, any other double by its bits. The
// lines that document 01 marks with T are proved too: proofs/Worked.antt.
#![tactic(auto)]

use answers::Refusal;
use std::io;
use std::io::{BufWriter, Write};

// What is asked, and the double that the code gives.
fn line<W: Write>(out: &mut W, of: &str, x: f64) -> io::Result<()> {
    writeln!(out, "{of:<40}{}", show::spell(x))
}

// What a call answers: its value, told in its own way, or the refusal.
fn answer<W: Write, T, F: FnOnce(&mut W, T) -> io::Result<()>>(
    out: &mut W,
    came: Result<T, Refusal>,
    tell: F,
) -> io::Result<()>
    requires { F.IsAlwaysCallable tell }
{
    match came {
        Ok(value) => tell(out, value),
        Err(refusal) => write!(out, "{refusal}"),
    }
}

fn roots<W: Write>(out: &mut W) -> io::Result<()> {
    line(out, "root of +0", root::sqrt(0.0))?;
    line(out, "root of -0", root::sqrt(-0.0))?;
    line(out, "root of 2", root::sqrt(2.0))?;
    line(out, "root of 2^-1074", root::sqrt(5e-324))?;
    line(
        out,
        "root of the largest finite",
        root::sqrt(1.7976931348623157e308),
    )?;
    line(out, "root of infinity", root::sqrt(1.0 / 0.0))?;
    line(out, "root of -1", root::sqrt(-1.0))?;
    line(out, "root of NaN", root::sqrt(0.0 / 0.0))?;
    // of our own: the guess of its digits is wrong, so they are found one by one
    line(out, "root of 1061318", root::sqrt(1061318.0))
}

fn leasts<W: Write>(out: &mut W) -> io::Result<()> {
    line(out, "least of 1, 2", extrema::least(1.0, 2.0))?;
    line(out, "least of 2, 1", extrema::least(2.0, 1.0))?;
    line(out, "least of +0, -0", extrema::least(0.0, -0.0))?;
    line(out, "least of -0, +0", extrema::least(-0.0, 0.0))?;
    line(out, "least of NaN, 1", extrema::least(0.0 / 0.0, 1.0))?;
    line(out, "least of 1, NaN", extrema::least(1.0, 0.0 / 0.0))?;
    line(
        out,
        "least of NaN, NaN",
        extrema::least(0.0 / 0.0, 0.0 / 0.0),
    )
}

fn greatests<W: Write>(out: &mut W) -> io::Result<()> {
    line(out, "greatest of 1, 2", extrema::greatest(1.0, 2.0))?;
    line(out, "greatest of 2, 1", extrema::greatest(2.0, 1.0))?;
    line(out, "greatest of +0, -0", extrema::greatest(0.0, -0.0))?;
    line(out, "greatest of -0, +0", extrema::greatest(-0.0, 0.0))?;
    line(out, "greatest of NaN, 1", extrema::greatest(0.0 / 0.0, 1.0))?;
    line(out, "greatest of 1, NaN", extrema::greatest(1.0, 0.0 / 0.0))?;
    line(
        out,
        "greatest of NaN, NaN",
        extrema::greatest(0.0 / 0.0, 0.0 / 0.0),
    )
}

fn space_number<W: Write>(out: &mut W, x: f64) -> io::Result<()> {
    write!(out, " {}", show::spell(x))
}

// The entries, in parentheses.
fn vector<W: Write>(out: &mut W, x: &[f64]) -> io::Result<()> {
    write!(out, " (")?;
    for (i, entry) in x.iter().enumerate() {
        if 0 < i {
            write!(out, ", ")?;
        }
        write!(out, "{}", show::spell(*entry))?;
    }
    write!(out, ")")
}

// The residual, and where the point stands.
fn line_residual<W: Write>(out: &mut W, of: &str, z: &[f64]) -> io::Result<()> {
    write!(out, "{of:<40}")?;
    answer(
        out,
        soc_residual::soc_residual(z),
        |out, r| write!(out, "{}", show::spell(r)),
    )?;
    write!(out, " ")?;
    answer(
        out,
        standing::soc_standing(z),
        |out, x| write!(out, "{x:?}"),
    )?;
    writeln!(out)
}

fn line_nn_standing<W: Write>(out: &mut W, of: &str, z: &[f64]) -> io::Result<()> {
    write!(out, "{of:<40}")?;
    answer(out, standing::nn_standing(z), |out, x| write!(out, "{x:?}"))?;
    writeln!(out)
}

// The answer; then eta, w, which was (9, 9), and lambda, which was (7, 7).
fn line_scaling<W: Write>(out: &mut W, of: &str, s: &[f64], z: &[f64]) -> io::Result<()> {
    write!(out, "{of:<40}")?;
    let mut w = [9.0; 2];
    let mut lambda = [7.0; 2];
    let mut u = [5.0; 2];
    let mut v = [3.0; 2];
    let mut eta = 0.0;
    let mut d = 1.0;
    let came = soc_scaling::soc_update_scaling(
        s,
        z,
        &mut w,
        &mut lambda,
        &mut u,
        &mut v,
        &mut eta,
        &mut d,
    );
    answer(out, came, |out, t| write!(out, "{t}"))?;
    space_number(out, eta)?;
    vector(out, &w)?;
    vector(out, &lambda)?;
    writeln!(out)
}

fn line_step<W: Write>(out: &mut W, of: &str, came: Result<f64, Refusal>) -> io::Result<()> {
    write!(out, "{of:<40}")?;
    answer(out, came, |out, a| write!(out, "{}", show::spell(a)))?;
    writeln!(out)
}

// Identity scaling: d is set to a half where the cone is sparse, and stays 1 where it is dense.
fn line_identity<W: Write>(
    out: &mut W,
    of: &str,
    w: &mut [f64],
    u: &mut [f64],
    v: &mut [f64],
) -> io::Result<()> {
    write!(out, "{of:<40}")?;
    let mut eta = 0.0;
    let mut d = 1.0;
    let came = soc_identity::soc_set_identity_scaling(w, u, v, &mut eta, &mut d);
    answer(out, came, |out, ()| write!(out, "done"))?;
    space_number(out, eta)?;
    space_number(out, d)?;
    writeln!(out)
}

fn residuals<W: Write>(out: &mut W) -> io::Result<()> {
    line_residual(out, "residual of (-2, 0)", &[-2.0, 0.0])?;
    line_residual(out, "residual of (5, 3)", &[5.0, 3.0])?;
    line_residual(out, "residual of (3, -3)", &[3.0, -3.0])?;
    line_residual(out, "residual of (1, 3)", &[1.0, 3.0])?;
    line_residual(out, "residual of (1, NaN)", &[1.0, 0.0 / 0.0])?;
    line_residual(out, "residual of (1)", &[1.0])
}

fn standings<W: Write>(out: &mut W) -> io::Result<()> {
    line_nn_standing(out, "standing of (1, 2)", &[1.0, 2.0])?;
    line_nn_standing(out, "standing of (1, -0)", &[1.0, -0.0])?;
    line_nn_standing(out, "standing of (0, -1)", &[0.0, -1.0])?;
    line_nn_standing(out, "standing of (-1, NaN)", &[-1.0, 0.0 / 0.0])
}

fn scalings<W: Write>(out: &mut W) -> io::Result<()> {
    line_scaling(out, "scale s (5, 3), z (5, -3)", &[5.0, 3.0], &[5.0, -3.0])?;
    line_scaling(out, "scale s (2, 0), z (-2, 0)", &[2.0, 0.0], &[-2.0, 0.0])?;
    line_scaling(out, "scale s = z = (-2, 0)", &[-2.0, 0.0], &[-2.0, 0.0])?;
    line_scaling(out, "scale s (1, 1), z (5, -3)", &[1.0, 1.0], &[5.0, -3.0])?;
    line_scaling(
        out,
        "scale s (5, 3, 0), z (5, -3)",
        &[5.0, 3.0, 0.0],
        &[5.0, -3.0],
    )
}

fn nonnegative_steps<W: Write>(out: &mut W) -> io::Result<()> {
    line_step(
        out,
        "(4, 1, 9) along (-1, 2, -3), limit 10",
        nn_step::nn_step(&[4.0, 1.0, 9.0], &[-1.0, 2.0, -3.0], 10.0),
    )?;
    line_step(
        out,
        "(NaN) along (-1), limit 1",
        nn_step::nn_step(&[0.0 / 0.0], &[-1.0], 1.0),
    )?;
    line_step(
        out,
        "(-1) along (-1), limit 1",
        nn_step::nn_step(&[-1.0], &[-1.0], 1.0),
    )?;
    line_step(
        out,
        "(1) along (0), limit infinity",
        nn_step::nn_step(&[1.0], &[0.0], 1.0 / 0.0),
    )?;
    line_step(
        out,
        "(1) along (-1, 1), limit NaN",
        nn_step::nn_step(&[1.0], &[-1.0, 1.0], 0.0 / 0.0),
    )
}

fn second_order_steps<W: Write>(out: &mut W) -> io::Result<()> {
    line_step(
        out,
        "(5, 0) along (0, 1), limit 10",
        soc_step::soc_step(&[5.0, 0.0], &[0.0, 1.0], 10.0),
    )?;
    line_step(
        out,
        "(1, 0) along (-1, 1), limit 1",
        soc_step::soc_step(&[1.0, 0.0], &[-1.0, 1.0], 1.0),
    )?;
    line_step(
        out,
        "(1, 0) along (-1, 1), limit 1/4",
        soc_step::soc_step(&[1.0, 0.0], &[-1.0, 1.0], 0.25),
    )?;
    line_step(
        out,
        "(1e200, 0) along (-1, 1), limit 2e200",
        soc_step::soc_step(&[1e200, 0.0], &[-1.0, 1.0], 2e200),
    )?;
    line_step(
        out,
        "(1, 1) along (0, -1), limit 1",
        soc_step::soc_step(&[1.0, 1.0], &[0.0, -1.0], 1.0),
    )?;
    line_step(
        out,
        "(1, 2) along (0, 0), limit 7",
        soc_step::soc_step(&[1.0, 2.0], &[0.0, 0.0], 7.0),
    )?;
    line_step(
        out,
        "(1, 0) along (1, 0), limit -0",
        soc_step::soc_step(&[1.0, 0.0], &[1.0, 0.0], -0.0),
    )?;
    line_step(
        out,
        "(1, 0) along (1, 0), limit -1",
        soc_step::soc_step(&[1.0, 0.0], &[1.0, 0.0], -1.0),
    )?;
    line_step(
        out,
        "(1, 0) along (1, 0), limit NaN",
        soc_step::soc_step(&[1.0, 0.0], &[1.0, 0.0], 0.0 / 0.0),
    )
}

fn second_order_edges<W: Write>(out: &mut W) -> io::Result<()> {
    line_step(out, "dimension 1", soc_step::soc_step(&[1.0], &[1.0], 1.0))?;
    line_step(
        out,
        "dimension 2",
        soc_step::soc_step(&[1.0; 2], &[0.0; 2], 1.0),
    )?;
    line_step(
        out,
        "dimension 4,096",
        soc_step::soc_step(&[1.0; 4096], &[0.0; 4096], 1.0),
    )?;
    line_step(
        out,
        "dimension 4,097",
        soc_step::soc_step(&[1.0; 4097], &[0.0; 4097], 1.0),
    )
}

fn nonnegative_edges<W: Write>(out: &mut W) -> io::Result<()> {
    line_step(
        out,
        "nonnegative dimension 0",
        nn_step::nn_step(&[1.0; 0], &[1.0; 0], 1.0),
    )?;
    line_step(
        out,
        "nonnegative dimension 4,096",
        nn_step::nn_step(&[1.0; 4096], &[0.0; 4096], 1.0),
    )?;
    line_step(
        out,
        "nonnegative dimension 4,097",
        nn_step::nn_step(&[1.0; 4097], &[0.0; 4097], 1.0),
    )
}

fn sparse_edge<W: Write>(out: &mut W) -> io::Result<()> {
    line_identity(
        out,
        "identity at 4, dense",
        &mut [0.0; 4],
        &mut [0.0; 4],
        &mut [0.0; 4],
    )?;
    line_identity(
        out,
        "identity at 5, sparse",
        &mut [0.0; 5],
        &mut [0.0; 5],
        &mut [0.0; 5],
    )
}

fn lines<W: Write>(out: &mut W) -> io::Result<()> {
    roots(out)?;
    leasts(out)?;
    greatests(out)?;
    residuals(out)?;
    standings(out)?;
    scalings(out)?;
    nonnegative_steps(out)?;
    second_order_steps(out)?;
    second_order_edges(out)?;
    nonnegative_edges(out)?;
    sparse_edge(out)
}

fn main(rt: HostRuntime) -> io::Result<()> {
    let mut out = BufWriter::new(rt.alloc(), io::writer(&rt))?;
    lines(&mut out)?;
    out.flush()
}
