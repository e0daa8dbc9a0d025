// A recorded case: a line of words in hex with one space between two (docs/CASES.md). Of our own; nothing is ported.
//
// A line is read byte by byte, so that its length has no bound.
#![tactic(auto, using(std::proofs::lemmas::Bool::Decides::nat_tests), unfolding(crate::specs::Text::digit, crate::specs::Text::grown, crate::specs::Text::ends, crate::specs::Text::takes, crate::specs::Text::closes))]

ghost use Rattle.std.specs.Prelude.{◌≡◌, ◌<◌, ◌+◌, ◌*◌, IfOk, Ok};
ghost use Rattle.cases.specs.declared.Fault.{Fault};
ghost use Rattle.cases.specs.Text.{Counts, number_of, digit, blank, grown, ends, takes, closes};

use std::error::Error;
use std::fmt;

// What is wrong with a line: with its text, the first four and the last; with what its words say, the others.
#[derive(Clone, Copy, Debug, PartialEq, Eq)]
pub enum Fault {
    NoDigit,
    EmptyWord,
    LongWord,
    TooManyWords,
    NoSuchCall,
    MissingWords,
    LongSlice,
    LongRow,
    WordsLeftOver,
    NotOneEntry,
    NoLineEnd,
}

impl fmt::Display for Fault {
    fn fmt<W: fmt::Write>(&self, f: &mut fmt::Formatter<W>) -> fmt::Result {
        f.write_str(match self {
            Fault::NoDigit => "a byte that is no digit",
            Fault::EmptyWord => "an empty word",
            Fault::LongWord => "a word of over 16 digits",
            Fault::TooManyWords => "over 1,400 words",
            Fault::NoSuchCall => "no such call",
            Fault::MissingWords => "words are missing",
            Fault::LongSlice => "a slice of over 64 entries",
            Fault::LongRow => "a row of over 260 records",
            Fault::WordsLeftOver => "words are left over",
            Fault::NotOneEntry => "a lent number that is not one entry",
            Fault::NoLineEnd => "no line end",
        })
    }
}

impl Error for Fault {}

// A type of faults that a line can carry: a caller's own, where those of the line's text are told among them.
pub trait OfText {
    ghost of_fault: { Fault → Self };

    fn of_fault(fault: Fault) -> Self
        ensures { result ≡ of_fault fault };
}

impl OfText for Fault {
    ghost of_fault = { λ fault. fault };

    fn of_fault(fault: Fault) -> Fault {
        fault
    }
}

// A fault by its number; any other number is a caller's own.
impl OfText for u8 {
    ghost of_fault = { number_of };

    fn of_fault(fault: Fault) -> u8 {
        match fault {
            Fault::NoDigit => 1,
            Fault::EmptyWord => 2,
            Fault::LongWord => 3,
            Fault::TooManyWords => 4,
            Fault::NoSuchCall => 5,
            Fault::MissingWords => 6,
            Fault::LongSlice => 7,
            Fault::LongRow => 8,
            Fault::WordsLeftOver => 9,
            Fault::NotOneEntry => 10,
            Fault::NoLineEnd => 11,
        }
    }
}

// What is read of a line: how many words are whole, how many digits the next has so far and what they come to.
#[derive(Drop)]
pub struct Line {
    pub count: usize,
    pub digits: usize,
    pub word: u64,
}

// A line of which nothing is read.
pub fn start() -> Line
    ensures { result ≡ blank }
{
    Line {
        count: 0,
        digits: 0,
        word: 0,
    }
}

// What a digit stands for. The library's `to_digit` takes capitals too.
fn digit<F: OfText>(b: u8) -> Result<u8, F>
    ensures value { result ≡ digit F.of_fault b }
    ensures small { IfOk result (λ d. d < 16) }
{
    match b {
        b'0'..=b'9' => Ok(b - b'0'),
        b'a'..=b'f' => Ok(b - b'a' + 10),
        _ => Err(F::of_fault(Fault::NoDigit)),
    }
}

// The line with one digit more. The test of the word is behind that of the digits; it is what the product asks for.
fn grown<F: OfText>(line: Line, b: u8) -> Result<Line, F>
    ensures { result ≡ grown F.of_fault b line }
{
    let d = digit::<F>(b)?;
    if (15 < line.digits) | (0xfff_ffff_ffff_ffff < line.word) {
        return Err(F::of_fault(Fault::LongWord));
    }
    Ok(Line {
        count: line.count,
        digits: line.digits + 1,
        word: line.word * 16 + d as u64,
    })
}

// The line at the end of a word, which goes to its place.
fn ended<F: OfText>(line: Line, words: &mut [u64]) -> Result<Line, F>
    ensures words_after { record { line = result; words = words.new } ≡ ends F.of_fault line words.old }
    ensures counts { IfOk result (λ line. Counts line.count words.new) }
{
    if line.digits == 0 {
        return Err(F::of_fault(Fault::EmptyWord));
    }
    let at = line.count;
    if words.len() <= at {
        return Err(F::of_fault(Fault::TooManyWords));
    }
    words[at] = line.word;
    Ok(Line {
        count: at + 1,
        digits: 0,
        word: 0,
    })
}

// The line with one byte more, which is no line end. A line that is damaged stays so.
pub fn take<F: OfText>(line: Result<Line, F>, b: u8, words: &mut [u64]) -> Result<Line, F>
    ensures { record { line = result; words = words.new } ≡ takes F.of_fault b line words.old }
{
    let line = line?;
    if b == b' ' {
        return ended(line, words);
    }
    grown(line, b)
}

// The line at its end, which ends a word too. What is wrong with it stays.
pub fn end<F: OfText>(line: Result<Line, F>, words: &mut [u64]) -> Result<Line, F>
    ensures words_after { record { line = result; words = words.new } ≡ closes F.of_fault line words.old }
    ensures counts { IfOk result (λ line. Counts line.count words.new) }
{
    ended(line?, words)
}
