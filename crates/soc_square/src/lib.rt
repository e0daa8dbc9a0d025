// The second-order cone's block Hs as a square matrix (document 01, "Forms by place"; source document 000, lines 217 to 246): the bare
// call, and behind it the kernel that it calls once nothing is refused.
#![tactic(auto, using(answers::proofs::Laws::outcomes), unfolding(vecmath::specs::Vector::each, crate::specs::Square::square_entry, crate::specs::Square::square_hs))]

ghost use Rattle.std.specs.Prelude.{◌≡◌, map, ◌*◌, ◌<◌};
ghost use Rattle.vecmath.specs.Vector.{each};
ghost use Rattle.answers.specs.Outcome.{tells, of_rows, of_square, as_squared};
ghost use Rattle.soc_square.specs.Square.{square_entry, square_hs, soc_square_hs};

use answers::{Refusal, Row, Square};

// An entry of the square matrix: of either triangle, or beyond the dimension.
fn square_entry(w: &[f64], eta: f64, row: usize, col: usize) -> f64
    ensures { result ≡ square_entry w.now eta row col }
{
    if (row < w.len()) & (col < w.len()) {
        if row < col {
            return eta * eta * soc_blocks::dense_entry(w, row, col);
        }
        return eta * eta * soc_blocks::dense_entry(w, col, row);
    }
    0.0
}

fn square_row(w: &[f64], eta: f64, row: usize) -> Row
    ensures { result.entries ≡ each 4 (λ col. square_entry w.now eta row col) }
{
    let c0 = square_entry(w, eta, row, 0);
    let c1 = square_entry(w, eta, row, 1);
    let c2 = square_entry(w, eta, row, 2);
    let c3 = square_entry(w, eta, row, 3);
    Row {
        entries: [c0, c1, c2, c3],
    }
}

pub fn square_hs(w: &[f64], eta: f64) -> [Row; 4]
    ensures { map (λ row. row.entries) result ≡ square_hs w.now eta }
{
    let r0 = square_row(w, eta, 0);
    let r1 = square_row(w, eta, 1);
    let r2 = square_row(w, eta, 2);
    let r3 = square_row(w, eta, 3);
    [r0, r1, r2, r3]
}

fn checked_square_hs(w: &[f64], eta: f64) -> Result<[Row; 4], Refusal>
    ensures { tells (of_rows result) tt ≡ soc_square_hs w.now eta }
{
    answers::check_dimension(2, w.len())?;
    answers::check_dense(w.len())?;
    Ok(square_hs(w, eta))
}

pub fn soc_square_hs(w: &[f64], eta: &f64) -> Square
    ensures { of_square result ≡ as_squared (soc_square_hs w.now eta.now).ruling }
{
    Square::from(checked_square_hs(w, *eta))
}
