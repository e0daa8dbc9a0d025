// Two axpby one after the other, in one pass, over entries from 1 on, which are lent further as a part (document 01, "Numbers"): what the products
// with W and its inverse do to the tail of y. Entry 0 is kept.
#![tactic(auto)]

ghost use Rattle.std.specs.Prelude.{◌≡◌, ◌∷◌, ◌≤◌, length};
ghost use Rattle.vecmath.specs.Double.{𝟏, ◌!◌};
ghost use Rattle.vecmath.specs.Vector.{axpby};
ghost use Rattle.tails.specs.Tail.{tail};

// Over a whole slice.
fn twice(y: &mut [f64], a: f64, x: &[f64], b: f64, c: f64, z: &[f64])
    requires { (length x.now ≡ length y.old) × (length z.now ≡ length y.old) }
    ensures { y.new ≡ axpby c z.now 𝟏 (axpby a x.now b y.old) }
{
    for (i, v) in y.iter_mut().enumerate() {
        *v = c * z[i] + 1.0 * (a * x[i] + b * *v);
    }
}

// y = a·x + b·y, and then y = c·z + y
pub fn axpby_twice(y: &mut [f64], a: f64, x: &[f64], b: f64, c: f64, z: &[f64])
    requires { (1 ≤ length y.old) × (length x.now ≡ length y.old) × (length z.now ≡ length y.old) }
    ensures { y.new ≡ y.old ! 0
        ∷ axpby c (tail z.now) 𝟏 (axpby a (tail x.now) b (tail y.old)) }
{
    twice(&mut y[1..], a, &x[1..], b, c, &z[1..])
}
