// The least entry and the sum of the positive ones, in one pass over a whole slice (document 01, "Numbers").
#![tactic(auto)]

ghost use Rattle.std.specs.Prelude.{◌≡◌, false};
ghost use Rattle.std.specs.Float.Ieee.{is_nan};
ghost use Rattle.extrema.specs.Extrema.{least_of};
ghost use Rattle.vecmath.specs.Vector.{minimum, positives};

// The least of m, which is a number, and x.
fn lower(m: f64, x: f64) -> f64
    requires { is_nan m ≡ false }
    ensures value { result ≡ least_of m x }
    ensures result_value { is_nan result ≡ false }
{
    if x < m { x } else { m }
}

// What the nonnegative cone's margins are.
#[derive(Clone, Copy)]
pub struct LeastSum {
    pub least: f64,
    pub sum: f64,
}

// The least entry, from infinity, and the sum of the entries above 0, in one pass. Two entries a turn: the least waits for the turn before
// once, not twice, since of two entries the least is found beforehand.
pub fn bounds(x: &[f64]) -> LeastSum
    ensures least_value { result.least ≡ minimum x.now }
    ensures sum_value { result.sum ≡ positives x.now }
{
    let mut least = 1.0 / 0.0;
    let mut sum = 0.0;
    let (pairs, last) = x.as_chunks::<2>();
    for [a, b] in pairs {
        least = lower(least, extrema::least(*a, *b));
        sum = sum + extrema::greatest(*a, 0.0) + extrema::greatest(*b, 0.0);
    }
    if let Some(a) = last.first() {
        return LeastSum {
            least: lower(least, *a),
            sum: sum + extrema::greatest(*a, 0.0),
        };
    }
    LeastSum { least, sum }
}
