// The vector helpers (document 01, "Numbers") that combine two whole slices, entry by entry. The caller owes equal lengths.
#![tactic(auto)]

ghost use Rattle.std.specs.Prelude.{◌≡◌, length};
ghost use Rattle.vecmath.specs.Vector.{axpby};

// y = a·x + b·y
pub fn axpby(y: &mut [f64], a: f64, x: &[f64], b: f64)
    requires { length x.now ≡ length y.old }
    ensures { y.new ≡ axpby a x.now b y.old }
{
    for (i, v) in y.iter_mut().enumerate() {
        *v = a * x[i] + b * *v;
    }
}

// w = a·x + b·y
pub fn waxpby(w: &mut [f64], a: f64, x: &[f64], b: f64, y: &[f64])
    requires { (length x.now ≡ length w.old) × (length y.now ≡ length w.old) }
    ensures { w.new ≡ axpby a x.now b y.now }
{
    for (i, v) in w.iter_mut().enumerate() {
        *v = a * x[i] + b * y[i];
    }
}
