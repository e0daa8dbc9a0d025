// Replays recorded cases: reads them from standard input, one to a line, and writes each call's answer and what its slices hold then. A
// line that is damaged gets a line that says so. docs/CASES.md has the format; compare/cases writes the cases beside this folder, with the
// answers of the crate that was ported, but for the step that document 02, item 3, mends. Of our own; nothing is ported.
#![tactic(auto)]

use case::Case;
use cases::{Fault, Line};
use std::io;
use std::io::{BufReader, BufWriter, Read, Write};

mod calls;
mod case;

fn damaged<W: Write>(out: &mut W, number: u64, fault: Fault) -> io::Result<()> {
    writeln!(out, "line {number}: damaged: {fault}")
}

// The case that a whole line's words tell, run and told; or what is wrong with them. The row's array stands behind the tests of the words and
// the call, those of the entries behind all tests (calls), since a line pays for each array that it gets to.
fn told<W: Write>(out: &mut W, words: &[u64]) -> Result<io::Result<()>, Fault> {
    if words.len() < 5 {
        return Err(Fault::MissingWords);
    }
    let shape = case::shape_of(words[0])?;
    let behind = &words[5..];
    let mut records = [[0; 3]; 260];
    let cut = case_rows::list_of(words[4] as usize, behind, &mut records)?;
    let row = &records[..cut.length];
    let own = &behind[cut.at..];
    case::check(own, shape)?;
    let c = Case {
        call: words[0],
        shape,
        a: case_words::double(words[1]),
        b: case_words::double(words[2]),
        row,
        place: conewalk::place_of(row, words[3] as usize),
        words: own,
    };
    Ok(calls::made(out, &c))
}

// A whole line, read into `words` but for its end.
fn line_end<W: Write>(
    out: &mut W,
    line: Result<Line, Fault>,
    number: u64,
    words: &mut [u64],
) -> io::Result<()> {
    let n = match cases::end(line, words) {
        Ok(line) => line.count,
        Err(fault) => return damaged(out, number, fault),
    };
    match told(out, &words[..n]) {
        Ok(written) => written,
        Err(fault) => damaged(out, number, fault),
    }
}

fn replay<R: Read + Drop, W: Write>(input: R, out: &mut W) -> io::Result<()> {
    let mut words = [0u64; 1400];
    let mut line = Ok(cases::start());
    let mut number = 1u64;
    for b in input.bytes() {
        let b = b?;
        if b == b'\n' {
            line_end(out, line, number, &mut words)?;
            line = Ok(cases::start());
            number = number.wrapping_add(1);
        } else {
            line = cases::take(line, b, &mut words);
        }
    }
    match line {
        Ok(line) if (line.count == 0) & (line.digits == 0) => Ok(()),
        _ => damaged(out, number, Fault::NoLineEnd),
    }
}

fn main(rt: HostRuntime) -> io::Result<()> {
    let input = BufReader::new(rt.alloc(), rt.reader())?;
    let mut out = BufWriter::new(rt.alloc(), io::writer(&rt))?;
    replay(input, &mut out)?;
    out.flush()
}
