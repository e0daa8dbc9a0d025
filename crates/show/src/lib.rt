// How our programs print a double. Of our own; nothing is ported.
//
// No contract can say what is written. So how a double is told is a value, which `spell` gives with
// its promise, and its `Display` writes; what prints promises no more than that it ends, and passes on
// the error of a writer that takes no more.
#![tactic(auto)]

ghost use Rattle.std.specs.Prelude.{◌≡◌, from_bits};
ghost use Rattle.std.specs.Float.{binary64};
ghost use Rattle.show.specs.Spelling.{stands};

use std::fmt;

// How a double is told: a whole number below 2^53 by its digits, with a minus or without; any
// other by its bits.
#[derive(Drop)]
pub enum Spelling {
    NotNumber,
    Whole(u64),
    Minus(u64),
    Bits(u64),
}

impl fmt::Display for Spelling {
    fn fmt<W: fmt::Write>(&self, f: &mut fmt::Formatter<W>) -> fmt::Result {
        match self {
            Spelling::NotNumber => f.write_str("NaN"),
            Spelling::Whole(n) => write!(f, "{n}"),
            Spelling::Minus(n) => write!(f, "-{n}"),
            Spelling::Bits(b) => write!(f, "0x{b:016x}"),
        }
    }
}

// What is told stands for x.
pub fn spell(x: f64) -> Spelling
    ensures { stands result ≡ x }
{
    if x.is_nan() {
        return Spelling::NotNumber;
    }
    let b = f64::to_bits(x);
    let y = if x < 0.0 { -x } else { x };
    if y > -1.0 {
        if y < 18446744073709551616.0 {
            return spell_whole(b, std::num::truncating_f64_to_u64(y));
        }
    }
    Spelling::Bits(b)
}

// The double with the bits b: by n, where that is its magnitude and below 2^53.
fn spell_whole(b: u64, n: u64) -> Spelling
    ensures { stands result ≡ from_bits binary64 b }
{
    if n >= 0x20_0000_0000_0000 {
        return Spelling::Bits(b);
    }
    let w = std::num::nearest_u64_to_f64(n);
    if f64::to_bits(w) == b {
        return Spelling::Whole(n);
    }
    if f64::to_bits(-w) == b {
        return Spelling::Minus(n);
    }
    Spelling::Bits(b)
}
