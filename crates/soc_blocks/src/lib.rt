// The second-order cone's block Hs (source document 000, lines 217 to 246), packed: the bare call, and behind it the kernel that it calls
// once nothing is refused.
#![tactic(auto, using(answers::proofs::Laws::outcomes, answers::proofs::Laws::fits, vecmath::proofs::Loops::loops), unfolding(crate::specs::Block::dense_entry, crate::specs::Block::sparse_hs, crate::specs::Block::dense_hs, crate::specs::Block::hs_of))]

ghost use Rattle.std.specs.Prelude.{◌≡◌, ◌+◌, ◌*◌, ◌/◌, ◌≤◌, ◌<◌, length};
ghost use Rattle.vecmath.specs.Double.{◌⊗◌};
ghost use Rattle.vecmath.specs.Vector.{each};
ghost use Rattle.answers.specs.Refusal.{block_length};
ghost use Rattle.answers.specs.Outcome.{tells, of_answer, ◌⨾◌};
ghost use Rattle.soc_blocks.specs.Block.{sparse_hs, dense_entry, dense_hs, hs_of, soc_get_hs};

use answers::Refusal;

const SQRT_2: f64 = 1.4142135623730951;

// How many numbers the block of a cone of n entries has.
pub fn block_length(n: usize) -> usize
    ensures { result ≡ block_length n }
{
    if 4 < n { n } else { n * (n + 1) / 2 }
}

// An entry of the upper triangle, before the factor.
pub fn dense_entry(w: &[f64], row: usize, col: usize) -> f64
    requires { (row < length w.now) × (col < length w.now) }
    ensures { result ≡ dense_entry w.now row col }
{
    if col == 0 {
        return (SQRT_2 * w[0] - 1.0) * (SQRT_2 * w[0] + 1.0);
    }
    let product = 2.0 * w[row] * w[col];
    if row == col { product + 1.0 } else { product }
}

// A column of the upper triangle, down to its diagonal.
fn column(part: &mut [f64], w: &[f64], eta2: f64, col: usize)
    requires { (length part.old ≡ col + 1) × (col < length w.now) }
    ensures { part.new ≡ each (col + 1) (λ row. eta2 ⊗ dense_entry w.now row col) }
{
    for (row, v) in part.iter_mut().enumerate() {
        *v = eta2 * dense_entry(w, row, col);
    }
}

// The upper triangle by columns: (0,0), (0,1), (1,1), (0,2), ..
fn dense_hs(hs: &mut [f64], w: &[f64], eta: f64)
    requires { length hs.old ≡ length w.now * (length w.now + 1) / 2 }
    ensures { hs.new ≡ dense_hs w.now eta }
{
    let eta2 = eta * eta;
    let mut at = 0;
    for col in 0..w.len() {
        let end = at + col + 1;
        column(&mut hs[at..end], w, eta2, col);
        at = end;
    }
}

// The diagonal of the sparse form.
fn sparse_hs(hs: &mut [f64], eta: f64, d: f64)
    requires { 1 ≤ length hs.old }
    ensures { hs.new ≡ sparse_hs (length hs.old) eta d }
{
    let eta2 = eta * eta;
    vecmath::fill(hs, eta2);
    tails_write::set_first(hs, eta2 * d);
}

pub fn get_hs(hs: &mut [f64], w: &[f64], eta: f64, d: f64)
    requires { length hs.old ≡ block_length (length w.now) }
    ensures { hs.new ≡ hs_of w.now eta d }
{
    if 4 < w.len() {
        sparse_hs(hs, eta, d);
    } else {
        dense_hs(hs, w, eta);
    }
}

pub fn soc_get_hs(hs: &mut [f64], w: &[f64], eta: &f64, d: &f64) -> Result<(), Refusal>
    ensures { tells (of_answer result) (hs.new ⨾ tt)
        ≡ soc_get_hs hs.old w.now eta.now d.now }
{
    answers::check(2, w.len(), hs.len() == block_length(w.len()))?;
    get_hs(hs, w, *eta, *d);
    Ok(())
}
