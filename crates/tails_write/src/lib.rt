// The vector helpers (document 01, "Numbers") that write entries from 1 on, which are lent further as a part. A written slice keeps
// entry 0, which `set_first` alone writes.
#![tactic(auto)]

ghost use Rattle.std.specs.Prelude.{◌≡◌, ◌∷◌, ◌≤◌, length};
ghost use Rattle.vecmath.specs.Double.{◌!◌};
ghost use Rattle.vecmath.specs.Vector.{axpby, scale_of};
ghost use Rattle.tails.specs.Tail.{tail};

// z[0] = v
pub fn set_first(z: &mut [f64], v: f64)
    requires { 1 ≤ length z.old }
    ensures { z.new ≡ v ∷ tail z.old }
{
    z[0] = v;
}

pub fn axpby(y: &mut [f64], a: f64, x: &[f64], b: f64)
    requires { (1 ≤ length y.old) × (length x.now ≡ length y.old) }
    ensures { y.new ≡ y.old ! 0 ∷ axpby a (tail x.now) b (tail y.old) }
{
    vecaxpby::axpby(&mut y[1..], a, &x[1..], b)
}

pub fn waxpby(w: &mut [f64], a: f64, x: &[f64], b: f64, y: &[f64])
    requires { (1 ≤ length w.old) × (length x.now ≡ length w.old) × (length y.now ≡ length w.old) }
    ensures { w.new ≡ w.old ! 0 ∷ axpby a (tail x.now) b (tail y.now) }
{
    vecaxpby::waxpby(&mut w[1..], a, &x[1..], b, &y[1..])
}

pub fn scale(y: &mut [f64], a: f64)
    requires { 1 ≤ length y.old }
    ensures { y.new ≡ y.old ! 0 ∷ scale_of a (tail y.old) }
{
    vecscale::scale(&mut y[1..], a)
}
