// The row of records with which the words of a recorded case begin (docs/CASES.md). Of our own; nothing is ported.
#![tactic(auto)]

ghost use Rattle.std.specs.Prelude.{◌≡◌, ◌≤◌, ◌*◌, length, IfOk};
ghost use Rattle.cases.specs.Text.{Counts};
ghost use Rattle.case_rows.specs.Rows.{records, list_of};

use case_words::Cut;
use cases::Fault;

// n records of three words.
#[tactic(auto, using(case_words::proofs::Laws::firsts), unfolding(crate::specs::Rows::records))]
fn records(words: &[u64], n: usize, out: &mut [[usize; 3]])
    requires { (3 * n ≤ length words.now) × (n ≤ length out.old) }
    ensures { out.new ≡ records words.now n out.old }
{
    for i in 0..n {
        let at = 3 * i;
        out[i] = [
            words[at] as usize,
            words[at + 1] as usize,
            words[at + 2] as usize,
        ];
    }
}

// A row of n records, with which the words begin.
#[tactic(auto, using(std::proofs::lemmas::Bool::Decides::nat_tests), unfolding(crate::specs::Rows::list_of))]
pub fn list_of(n: usize, words: &[u64], out: &mut [[usize; 3]; 260]) -> Result<Cut, Fault>
    ensures out_after { record { cut = result; holds = out.new } ≡ list_of n words.now out.old }
    ensures counts { IfOk result (λ cut. Counts cut.length out.new × (cut.at ≤ length words.now)) }
{
    if 260 < n {
        return Err(Fault::LongRow);
    }
    if words.len() < 3 * n {
        return Err(Fault::MissingWords);
    }
    records(words, n, out);
    Ok(Cut {
        at: 3 * n,
        length: n,
    })
}
