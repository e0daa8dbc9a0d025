// What the program replay writes of an answer: the refusal's number, 0 for none, then the values. Of our own; nothing is ported.
#![tactic(auto)]

use answers::{Margins, Refusal, Square, Standing, StepPair};
use std::io;
use std::io::Write;

// What is told of an entry of a slice, or behind the 0 of what a call answers.
pub trait Values: Copy {
    fn tell<W: Write>(self, out: &mut W) -> io::Result<()>;
}

impl Values for () {
    fn tell<W: Write>(self, _out: &mut W) -> io::Result<()> {
        Ok(())
    }
}

// A double by the 16 digits of its bits, or the word NaN.
impl Values for f64 {
    fn tell<W: Write>(self, out: &mut W) -> io::Result<()> {
        if self.is_nan() {
            write!(out, " NaN")
        } else {
            write!(out, " {:016x}", self.to_bits())
        }
    }
}

impl Values for u8 {
    fn tell<W: Write>(self, out: &mut W) -> io::Result<()> {
        write!(out, " {self}")
    }
}

impl Values for Margins {
    fn tell<W: Write>(self, out: &mut W) -> io::Result<()> {
        self.alpha.tell(out)?;
        self.beta.tell(out)
    }
}

impl Values for StepPair {
    fn tell<W: Write>(self, out: &mut W) -> io::Result<()> {
        self.z.tell(out)?;
        self.s.tell(out)
    }
}

impl Values for bool {
    fn tell<W: Write>(self, out: &mut W) -> io::Result<()> {
        (self as u8).tell(out)
    }
}

// The first cone that answers false, if one does.
impl Values for Option<usize> {
    fn tell<W: Write>(self, out: &mut W) -> io::Result<()> {
        match self {
            None => true.tell(out),
            Some(k) => {
                false.tell(out)?;
                write!(out, " {k}")
            }
        }
    }
}

impl Values for Standing {
    fn tell<W: Write>(self, out: &mut W) -> io::Result<()> {
        u8::from(self).tell(out)
    }
}

// What a slice holds, behind a bar.
pub fn contents<W: Write, T: Values>(out: &mut W, x: &[T]) -> io::Result<()> {
    write!(out, " |")?;
    for entry in x {
        entry.tell(out)?;
    }
    Ok(())
}

pub fn answer<W: Write, T: Values>(out: &mut W, x: Result<T, Refusal>) -> io::Result<()> {
    match x {
        Ok(values) => {
            write!(out, "0")?;
            values.tell(out)
        }
        Err(refusal) => write!(out, "{}", u8::from(refusal)),
    }
}

// The matrix by rows, also where it is refused.
pub fn square<W: Write>(out: &mut W, x: Square) -> io::Result<()> {
    write!(out, "{}", x.no)?;
    for row in &x.rows {
        for entry in &row.entries {
            entry.tell(out)?;
        }
    }
    Ok(())
}
