// Rows of cones that the program makes itself, and what calls on them come to: where a row is taken and where it is refused, each buffer one
// number too short and too long, the limits of a step, the square block, the step and the scaling over a whole list, and which marks refuse which calls
// (document 01, "Refusal numbers"; document 02, items 1 and 4). Of our own; nothing is ported.
#![tactic(auto)]

ghost use Rattle.std.specs.Prelude.{◌≤◌, ◌+◌};

use answers::{Refusal, StepPair};
use conelist::{Cone, Kind};
use std::io;
use std::io::{BufWriter, Write};

// ---- how an answer is written

fn told<W: Write>(out: &mut W, a: Result<(), Refusal>) -> io::Result<()> {
    match a {
        Ok(()) => write!(out, "done"),
        Err(refusal) => write!(out, "{refusal}"),
    }
}

fn say<W: Write>(out: &mut W, a: Result<(), Refusal>) -> io::Result<()> {
    told(out, a)?;
    writeln!(out)
}

fn two<W: Write>(out: &mut W, a: f64, b: f64) -> io::Result<()> {
    write!(out, "{} {}", show::spell(a), show::spell(b))
}

fn triple<W: Write>(out: &mut W, a: f64, b: f64, c: f64) -> io::Result<()> {
    two(out, a, b)?;
    write!(out, " {}", show::spell(c))
}

fn say_scaling<W: Write>(out: &mut W, a: Result<bool, Refusal>) -> io::Result<()> {
    match a {
        Ok(t) => writeln!(out, "{t}"),
        Err(refusal) => writeln!(out, "{refusal}"),
    }
}

fn say_scalings<W: Write>(out: &mut W, a: Result<Option<usize>, Refusal>) -> io::Result<()> {
    match a {
        Ok(None) => write!(out, "true"),
        Ok(Some(k)) => write!(out, "false at {k}"),
        Err(refusal) => write!(out, "{refusal}"),
    }
}

fn say_steps<W: Write>(out: &mut W, a: Result<StepPair, Refusal>) -> io::Result<()> {
    match a {
        Ok(pair) => two(out, pair.z, pair.s)?,
        Err(refusal) => write!(out, "{refusal}")?,
    }
    writeln!(out)
}

// ---- rows of cones, of which the first so many are lent

fn nonnegative(start: usize, n: usize) -> Cone {
    Cone {
        start,
        kind: Kind::Nonnegative(n),
    }
}

fn second_order(start: usize, n: usize) -> Cone {
    Cone {
        start,
        kind: Kind::SecondOrder(n),
    }
}

// 257 cones of no entries.
fn empty() -> [Cone; 257] {
    [nonnegative(0, 0); 257]
}

// Three cones of ten entries in all, and behind them those of no entries, which do not start where they must.
fn three(first: Cone, second: Cone, third: Cone) -> [Cone; 257] {
    let mut list = empty();
    list[0] = first;
    list[1] = second;
    list[2] = third;
    list
}

fn ten() -> [Cone; 257] {
    three(nonnegative(0, 2), second_order(2, 3), second_order(5, 5))
}

// ---- a row is taken, or refused

// The margins of cone k, where every entry is 1, of ten entries in all.
fn line<W: Write>(out: &mut W, of: &str, list: &[Cone], k: usize) -> io::Result<()> {
    write!(out, "{of:<40}")?;
    match list_margins::margins_at(conewalk::place_of(list, k), &[1.0; 10]) {
        Ok(m) => two(out, m.alpha, m.beta)?,
        Err(refusal) => write!(out, "{refusal}")?,
    }
    writeln!(out)
}

fn taken<W: Write>(out: &mut W) -> io::Result<()> {
    line(out, "cone 0 of three", local_rows::front(&ten(), 3), 0)?;
    line(out, "cone 1 of three", local_rows::front(&ten(), 3), 1)?;
    line(out, "cone 2 of three", local_rows::front(&ten(), 3), 2)?;
    line(out, "cone 3 of three", local_rows::front(&ten(), 3), 3)?;
    line(
        out,
        "cone 0 of two, the buffer too long",
        local_rows::front(&ten(), 2),
        0,
    )
}

// One cone alone.
fn alone<W: Write>(out: &mut W, of: &str, first: Cone) -> io::Result<()> {
    line(
        out,
        of,
        local_rows::front(&three(first, nonnegative(0, 0), nonnegative(0, 0)), 1),
        0,
    )
}

fn first_records<W: Write>(out: &mut W) -> io::Result<()> {
    alone(out, "start 1 at the first record", nonnegative(1, 10))?;
    alone(out, "second-order of dimension 1", second_order(0, 1))?;
    alone(
        out,
        "second-order of dimension 4,097",
        second_order(0, 4097),
    )?;
    alone(out, "nonnegative of dimension 4,097", nonnegative(0, 4097))?;
    alone(out, "second-order of dimension 10", second_order(0, 10))
}

fn later<W: Write>(out: &mut W, of: &str, second: Cone, third: Cone, k: usize) -> io::Result<()> {
    line(
        out,
        of,
        local_rows::front(&three(nonnegative(0, 2), second, third), 3),
        k,
    )
}

fn later_records<W: Write>(out: &mut W) -> io::Result<()> {
    later(
        out,
        "start off by one at the third",
        second_order(2, 3),
        second_order(6, 5),
        0,
    )?;
    later(
        out,
        "start off, then dimension 1",
        second_order(3, 3),
        second_order(6, 1),
        0,
    )?;
    later(
        out,
        "dimension 1, then start off",
        second_order(2, 1),
        second_order(6, 5),
        0,
    )?;
    later(
        out,
        "start off, and no such cone",
        second_order(3, 3),
        second_order(6, 4),
        9,
    )
}

fn counts<W: Write>(out: &mut W) -> io::Result<()> {
    line(out, "no cones", local_rows::front(&empty(), 0), 0)?;
    line(
        out,
        "256 cones, the buffer too long",
        local_rows::front(&empty(), 256),
        255,
    )?;
    line(out, "257 cones", local_rows::front(&empty(), 257), 0)?;
    line(
        out,
        "257 cones, all out of range",
        local_rows::front(&[second_order(0, 1); 257], 257),
        0,
    )
}

// Sixteen cones of 4,096 entries are 65,536; then a cone of so many entries.
fn full<W: Write>(out: &mut W, of: &str, n: usize) -> io::Result<()> {
    let mut list = empty();
    for (i, cone) in list[..16].iter_mut().enumerate() {
        *cone = nonnegative(4096 * i, 4096);
    }
    list[16] = nonnegative(65536, n);
    line(out, of, local_rows::front(&list, 17), 0)
}

fn totals<W: Write>(out: &mut W) -> io::Result<()> {
    full(out, "65,536 entries, the buffer too short", 0)?;
    full(out, "65,537 entries", 1)
}

// ---- each buffer one too short and one too long

// The length of buffer `at`: one less than n, n or one more for the buffer that is meant, n for the others.
fn long(meant: usize, at: usize, n: usize, more: usize) -> usize
    requires le_n { 1 ≤ n }
    requires n_bound { n ≤ 13 }
    requires more_bound { more ≤ 2 }
    ensures { result ≤ n + 1 }
{
    if meant == at { n - 1 + more } else { n }
}

// Scaling of cone 1 of three, ten entries in all; `meant` counts s, z, w, lambda, u, v, eta, d, marks.
fn scale<W: Write>(out: &mut W, of: &str, meant: usize, more: usize) -> io::Result<()>
    requires { more ≤ 2 }
{
    write!(out, "{of:<40}")?;
    let s = [1.0, 1.0, 5.0, 3.0, 0.0, 1.0, 1.0, 1.0, 1.0, 1.0, 1.0];
    let z = s;
    let mut w = [0.0; 11];
    let mut lambda = [0.0; 11];
    let mut u = [0.0; 11];
    let mut v = [0.0; 11];
    let mut eta = [0.0; 4];
    let mut d = [0.0; 4];
    let mut marks = [0; 4];
    let in_s = long(meant, 0, 10, more);
    let in_z = long(meant, 1, 10, more);
    let in_w = long(meant, 2, 10, more);
    let in_lambda = long(meant, 3, 10, more);
    let in_u = long(meant, 4, 10, more);
    let in_v = long(meant, 5, 10, more);
    let in_eta = long(meant, 6, 3, more);
    let in_d = long(meant, 7, 3, more);
    let in_marks = long(meant, 8, 3, more);
    say_scaling(
        out,
        list_scaling::update_scaling_at(
            local_rows::place_in(&ten(), 3, 1),
            &s[..in_s],
            &z[..in_z],
            &mut w[..in_w],
            &mut lambda[..in_lambda],
            &mut u[..in_u],
            &mut v[..in_v],
            &mut eta[..in_eta],
            &mut d[..in_d],
            &mut marks[..in_marks],
        ),
    )
}

fn scalings<W: Write>(out: &mut W) -> io::Result<()> {
    scale(out, "scaling, s one short", 0, 0)?;
    scale(out, "scaling, s one long", 0, 2)?;
    scale(out, "scaling, z one short", 1, 0)?;
    scale(out, "scaling, z one long", 1, 2)?;
    scale(out, "scaling, w one short", 2, 0)?;
    scale(out, "scaling, w one long", 2, 2)?;
    scale(out, "scaling, lambda one short", 3, 0)?;
    scale(out, "scaling, lambda one long", 3, 2)
}

fn more_scalings<W: Write>(out: &mut W) -> io::Result<()> {
    scale(out, "scaling, u one short", 4, 0)?;
    scale(out, "scaling, u one long", 4, 2)?;
    scale(out, "scaling, v one short", 5, 0)?;
    scale(out, "scaling, v one long", 5, 2)?;
    scale(out, "scaling, eta one short", 6, 0)?;
    scale(out, "scaling, eta one long", 6, 2)?;
    scale(out, "scaling, d one short", 7, 0)?;
    scale(out, "scaling, d one long", 7, 2)?;
    scale(out, "scaling, marks one short", 8, 0)?;
    scale(out, "scaling, marks one long", 8, 2)?;
    scale(out, "scaling, all of their lengths", 9, 0)
}

// The blocks of the same three cones have 2 + 6 + 5 numbers.
fn block<W: Write>(out: &mut W, of: &str, more: usize, mark: u8) -> io::Result<()>
    requires { more ≤ 2 }
{
    write!(out, "{of:<40}")?;
    let mut hs = [0.0; 14];
    let in_hs = long(0, 0, 13, more);
    say(
        out,
        list_blocks::get_hs_at(
            local_rows::place_in(&ten(), 3, 1),
            &mut hs[..in_hs],
            &[1.0; 10],
            &[1.0; 3],
            &[1.0; 3],
            &[mark; 3],
        ),
    )
}

fn blocks<W: Write>(out: &mut W) -> io::Result<()> {
    block(out, "blocks, hs one short", 0, 1)?;
    block(out, "blocks, hs of its length", 1, 1)?;
    block(out, "blocks, hs one long", 2, 1)?;
    block(out, "blocks, hs one short, a fresh cone", 0, 0)
}

// ---- the square block

fn square<W: Write>(out: &mut W, of: &str, k: usize, mark: u8) -> io::Result<()> {
    write!(out, "{of:<40}")?;
    let list = three(nonnegative(0, 2), second_order(2, 4), second_order(6, 5));
    let p = local_rows::place_in(&list, 3, k);
    let got = list_square::square_hs_at(p, &[2.0; 11], &[1.0; 3], &[mark; 3]);
    write!(out, "{} ", got.no)?;
    two(out, got.rows[0].entries[0], got.rows[3].entries[2])?;
    writeln!(out)
}

fn squares<W: Write>(out: &mut W) -> io::Result<()> {
    square(out, "square block, nonnegative", 0, 1)?;
    square(out, "square block, dimension 4", 1, 1)?;
    square(out, "square block, dimension 5", 2, 1)?;
    square(out, "square block, dimension 4, a fresh cone", 1, 0)?;
    square(out, "square block, dimension 5, a fresh cone", 2, 0)
}

// ---- steps, of one cone and of the list

// (4, 9) along (-1, -3), and (5, 0) along (0, 1).
fn four() -> [Cone; 257] {
    three(nonnegative(0, 2), second_order(2, 2), nonnegative(4, 0))
}

fn step<W: Write>(out: &mut W, of: &str, limit: f64) -> io::Result<()> {
    write!(out, "{of:<40}")?;
    let x = [4.0, 9.0, 5.0, 0.0];
    let y = [-1.0, -3.0, 0.0, 1.0];
    say_steps(
        out,
        list_step::step_length_at(local_rows::place_in(&four(), 3, 1), &y, &y, &x, &x, limit),
    )
}

fn steps<W: Write>(out: &mut W) -> io::Result<()> {
    step(out, "step, limit 10", 10.0)?;
    step(out, "step, limit NaN", 0.0 / 0.0)?;
    step(out, "step, limit -1", -1.0)?;
    step(out, "step, limit -0", -0.0)?;
    step(out, "step, limit infinity", 1.0 / 0.0)
}

// The s side goes nowhere.
fn whole<W: Write>(out: &mut W, of: &str, list: &[Cone], limit: f64) -> io::Result<()> {
    write!(out, "{of:<40}")?;
    let x = [4.0, 9.0, 5.0, 0.0];
    let y = [-1.0, -3.0, 0.0, 1.0];
    say_steps(
        out,
        whole_step::list_step_length(list, &y, &[0.0; 4], &x, &x, limit),
    )
}

fn wholes<W: Write>(out: &mut W) -> io::Result<()> {
    whole(
        out,
        "list step, limit 10",
        local_rows::front(&four(), 3),
        10.0,
    )?;
    whole(
        out,
        "list step, limit 2",
        local_rows::front(&four(), 3),
        2.0,
    )?;
    whole(
        out,
        "list step, a buffer too long",
        local_rows::front(&four(), 1),
        10.0,
    )?;
    whole(
        out,
        "list step, limit -1",
        local_rows::front(&four(), 3),
        -1.0,
    )?;
    whole(
        out,
        "list step, a start off",
        local_rows::front(&ten(), 4),
        -1.0,
    )
}

// An empty list gives the limit twice.
fn nothing<W: Write>(out: &mut W) -> io::Result<()> {
    write!(out, "{:<40}", "list step of no cones, limit 7")?;
    let none: [f64; 0] = [];
    say_steps(
        out,
        whole_step::list_step_length(
            local_rows::front(&empty(), 0),
            &none,
            &none,
            &none,
            &none,
            7.0,
        ),
    )
}

// ---- the scaling of the whole list

// Three marks, and the line's end.
fn said<W: Write>(out: &mut W, marks: [u8; 3]) -> io::Result<()> {
    let [first, second, third] = marks;
    writeln!(out, " | {first} {second} {third}")
}

// Behind the answer, of the first three cones, what eta, the first entries of w and the marks hold: 9, 7 and 0, 1, 3 where they are not written.
fn scaled<W: Write>(
    out: &mut W,
    of: &str,
    list: &[Cone],
    s: [f64; 6],
    z: [f64; 6],
) -> io::Result<()> {
    write!(out, "{of:<40}")?;
    let mut w = [7.0; 6];
    let mut lambda = [7.0; 6];
    let mut u = [7.0; 6];
    let mut v = [7.0; 6];
    let mut eta = [9.0; 3];
    let mut d = [9.0; 3];
    let mut marks = [0, 1, 3];
    say_scalings(
        out,
        whole_scaling::list_update_scaling(
            list,
            &s,
            &z,
            &mut w,
            &mut lambda,
            &mut u,
            &mut v,
            &mut eta,
            &mut d,
            &mut marks,
        ),
    )?;
    write!(out, " | ")?;
    triple(out, eta[0], eta[1], eta[2])?;
    write!(out, " | ")?;
    triple(out, w[0], w[2], w[4])?;
    said(out, marks)
}

fn pairs() -> [Cone; 257] {
    three(second_order(0, 2), second_order(2, 2), second_order(4, 2))
}

// (5, 3) lies inside; s (1, 1) gives an early false, s (2, 0) with z (-2, 0) a late one; neither writes.
fn scaled_lines<W: Write>(out: &mut W) -> io::Result<()> {
    let inside = [5.0, 3.0, 5.0, 3.0, 5.0, 3.0];
    let early = [5.0, 3.0, 1.0, 1.0, 5.0, 3.0];
    let late = [5.0, 3.0, 2.0, 0.0, 5.0, 3.0];
    let turned = [5.0, 3.0, -2.0, 0.0, 5.0, 3.0];
    scaled(
        out,
        "list scaling, all true",
        local_rows::front(&pairs(), 3),
        inside,
        inside,
    )?;
    scaled(
        out,
        "list scaling, early false",
        local_rows::front(&pairs(), 3),
        early,
        inside,
    )?;
    scaled(
        out,
        "list scaling, late false",
        local_rows::front(&pairs(), 3),
        late,
        turned,
    )?;
    scaled(
        out,
        "list scaling, a buffer too long",
        local_rows::front(&pairs(), 2),
        inside,
        inside,
    )
}

fn scaled_edges<W: Write>(out: &mut W) -> io::Result<()> {
    let inside = [5.0, 3.0, 5.0, 3.0, 5.0, 3.0];
    let first = [1.0, 1.0, 5.0, 3.0, 5.0, 3.0];
    let last = [5.0, 3.0, 5.0, 3.0, 1.0, 1.0];
    scaled(
        out,
        "list scaling, false at the first",
        local_rows::front(&pairs(), 3),
        first,
        inside,
    )?;
    scaled(
        out,
        "list scaling, false at the last",
        local_rows::front(&pairs(), 3),
        last,
        inside,
    )?;
    let short = three(second_order(0, 2), second_order(2, 2), second_order(4, 1));
    scaled(
        out,
        "list scaling, dimension 1 at the last",
        local_rows::front(&short, 3),
        inside,
        inside,
    )?;
    let off = three(second_order(0, 2), second_order(2, 2), second_order(5, 2));
    scaled(
        out,
        "list scaling, start off at the last",
        local_rows::front(&off, 3),
        inside,
        inside,
    )?;
    scaled(
        out,
        "list scaling, 257 cones",
        local_rows::front(&empty(), 257),
        inside,
        inside,
    )
}

// An empty list answers true.
fn scaled_nothing<W: Write>(out: &mut W, of: &str, s: &[f64]) -> io::Result<()> {
    write!(out, "{of:<40}")?;
    let none: [f64; 0] = [];
    let mut w: [f64; 0] = [];
    let mut lambda: [f64; 0] = [];
    let mut u: [f64; 0] = [];
    let mut v: [f64; 0] = [];
    let mut eta: [f64; 0] = [];
    let mut d: [f64; 0] = [];
    let mut marks: [u8; 0] = [];
    say_scalings(
        out,
        whole_scaling::list_update_scaling(
            local_rows::front(&empty(), 0),
            s,
            &none,
            &mut w,
            &mut lambda,
            &mut u,
            &mut v,
            &mut eta,
            &mut d,
            &mut marks,
        ),
    )?;
    writeln!(out)
}

// ---- marks: 0 is fresh, 1 identity, 2 scaled, and any other counts as fresh

// Of ten entries in all: the product of a second-order cone, its affine_ds and its offset, and a nonnegative cone's offset.
fn reads<W: Write>(out: &mut W, of: &str, mark: u8) -> io::Result<()> {
    write!(out, "{of:<40}")?;
    let x = [5.0; 10];
    let eta = [1.0; 3];
    let marks = [mark; 3];
    let mut y = [0.0; 10];
    let p = local_rows::place_in(&ten(), 3, 1);
    told(out, list_mul_hs::mul_hs_at(p, &mut y, &x, &x, &eta, &marks))?;
    write!(out, " | ")?;
    told(out, list_jordan::affine_ds_at(p, &mut y, &x, &marks))?;
    write!(out, " | ")?;
    told(
        out,
        list_shifts::ds_from_dz_offset_at(p, &mut y, &x, &x, &x, &x, &eta, &marks),
    )?;
    write!(out, " | ")?;
    let q = local_rows::place_in(&ten(), 3, 0);
    say(
        out,
        list_shifts::ds_from_dz_offset_at(q, &mut y, &x, &x, &x, &x, &eta, &marks),
    )
}

fn marked<W: Write>(out: &mut W) -> io::Result<()> {
    reads(out, "a fresh cone", 0)?;
    reads(out, "an identity cone", 1)?;
    reads(out, "a scaled cone", 2)?;
    reads(out, "mark 3", 3)?;
    reads(out, "mark 255", 255)
}

// A nonnegative cone's offset reads no mark, but the marks' length is tested.
fn short_marks<W: Write>(out: &mut W) -> io::Result<()> {
    write!(out, "{:<40}", "nonnegative offset, marks one short")?;
    let x = [5.0; 10];
    let mut y = [0.0; 10];
    let p = local_rows::place_in(&ten(), 3, 0);
    say(
        out,
        list_shifts::ds_from_dz_offset_at(p, &mut y, &x, &x, &x, &x, &[1.0; 3], &[2; 2]),
    )
}

fn lines<W: Write>(out: &mut W) -> io::Result<()> {
    taken(out)?;
    first_records(out)?;
    later_records(out)?;
    counts(out)?;
    totals(out)?;
    scalings(out)?;
    more_scalings(out)?;
    blocks(out)?;
    squares(out)?;
    steps(out)?;
    wholes(out)?;
    nothing(out)?;
    scaled_lines(out)?;
    scaled_edges(out)?;
    let none: [f64; 0] = [];
    scaled_nothing(out, "list scaling of no cones", &none)?;
    scaled_nothing(out, "list scaling of no cones, s one long", &[1.0])?;
    marked(out)?;
    short_marks(out)
}

fn main(rt: HostRuntime) -> io::Result<()> {
    let mut out = BufWriter::new(rt.alloc(), io::writer(&rt))?;
    lines(&mut out)?;
    out.flush()
}
