// The vector helpers (document 01, "Numbers") that scale and translate a whole slice, entry by entry.
#![tactic(auto)]

ghost use Rattle.std.specs.Prelude.{◌≡◌};
ghost use Rattle.vecmath.specs.Vector.{scale_of, translate};

// y = a·y
pub fn scale(y: &mut [f64], a: f64)
    ensures { y.new ≡ scale_of a y.old }
{
    for v in y.iter_mut() {
        *v = a * *v;
    }
}

// y = y + a
pub fn translate(y: &mut [f64], a: f64)
    ensures { y.new ≡ translate a y.old }
{
    for v in y.iter_mut() {
        *v += a;
    }
}
