// What the words of a recorded case say behind its row (docs/CASES.md): its slices, and the doubles that they hold. Of our own; nothing is
// ported.
#![tactic(auto)]

ghost use Rattle.std.specs.Prelude.{◌≡◌, ℕ, ◌≤◌, length};
ghost use Rattle.std.specs.Float.{binary64};
ghost use Rattle.std.specs.Float.Ieee.{of_bits};
ghost use Rattle.case_words.specs.Words.{slice, nth, left, double_of_word, mark_of_word, entries};

use cases::Fault;

// What was read of a case's words: where the next begins, and how many records or entries there were.
#[derive(Drop)]
pub struct Cut {
    pub at: usize,
    pub length: usize,
}

// ---- where the slices lie

// The slice at a place: its length, and its entries.
#[tactic(auto, using(std::proofs::lemmas::Bool::Decides::nat_tests), unfolding(crate::specs::Words::slice))]
fn slice(words: &[u64], at: usize) -> Result<Cut, Fault>
    ensures { result ≡ slice words.now at }
{
    if words.len() <= at {
        return Err(Fault::MissingWords);
    }
    let n = words[at] as usize;
    if 64 < n {
        return Err(Fault::LongSlice);
    }
    let from = at + 1;
    if words.len() - from < n {
        return Err(Fault::MissingWords);
    }
    Ok(Cut {
        at: from + n,
        length: n,
    })
}

// Slice k, counted from 1 on.
pub fn nth(words: &[u64], k: usize) -> Result<Cut, Fault>
    ensures { result ≡ nth words.now k }
{
    let mut cut = Cut { at: 0, length: 0 };
    for _ in 0..k {
        cut = slice(words, cut.at)?;
    }
    Ok(cut)
}

// The words are those of k slices, and none is left over.
#[tactic(auto, using(std::proofs::lemmas::Bool::Decides::nat_tests))]
pub fn check_slices(words: &[u64], k: usize) -> Result<(), Fault>
    ensures { result ≡ left words.now (nth words.now k) }
{
    let last = nth(words, k)?;
    if last.at == words.len() {
        Ok(())
    } else {
        Err(Fault::WordsLeftOver)
    }
}

// ---- what they hold

// The double with the bits b; any NaN's stand for NaN.
pub fn double(b: u64) -> f64
    ensures { result ≡ of_bits binary64 b }
{
    if 0x7ff0_0000_0000_0000 < b % 0x8000_0000_0000_0000 {
        return 0.0 / 0.0;
    }
    f64::from_bits(b)
}

// What a slice may hold: an entry is told by one word.
pub trait Entry: Copy {
    ghost entry: { ℕ → Self };

    fn of_word(word: u64) -> Self
        ensures { result ≡ entry word };
}

impl Entry for f64 {
    ghost entry = { double_of_word };

    fn of_word(word: u64) -> f64 {
        double(word)
    }
}

// A mark: the word's last byte.
impl Entry for u8 {
    ghost entry = { mark_of_word };

    fn of_word(word: u64) -> u8 {
        (word % 256) as u8
    }
}

// Each word's entry, at its own place.
#[tactic(auto, using(crate::proofs::Laws::firsts), unfolding(crate::specs::Words::entries))]
pub fn entries<T: Entry>(words: &[u64], out: &mut [T])
    requires { length words.now ≤ length out.old }
    ensures { out.new ≡ entries T.entry words.now out.old }
{
    for (i, word) in words.iter().enumerate() {
        out[i] = T::of_word(*word);
    }
}
