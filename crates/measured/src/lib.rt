// What bench/ and compare/ call of the layers below the public calls: the root, the plain root, and
// two vector helpers, exported to C. Of our own; nothing is ported. Each is total: where lengths differ it
// writes nothing.
#![tactic(auto)]

ghost use Rattle.std.specs.Prelude.{◌≡◌, true, false, length};
ghost use Rattle.std.specs.Float.{nan};
ghost use Rattle.root.specs.Root.{root};
ghost use Rattle.vecmath.specs.Vector.{dot, axpby};
ghost use Rattle.measured.specs.Fitted.{fitted_of, roots};

#[unsafe(no_mangle)]
pub extern "C" fn measured_sqrt(x: f64) -> f64
    ensures { result ≡ root x }
{
    root::sqrt(x)
}

// the same root the plain way, digit by digit
#[unsafe(no_mangle)]
pub extern "C" fn measured_plain_sqrt(x: f64) -> f64
    ensures { result ≡ root x }
{
    root::plain::sqrt(x)
}

// y = √x
fn roots(y: &mut [f64], x: &[f64])
    requires { length x.now ≡ length y.old }
    ensures { y.new ≡ roots x.now }
{
    for (i, v) in y.iter_mut().enumerate() {
        *v = root::sqrt(x[i]);
    }
}

// y = √x, and whether it was done
#[tactic(auto, using(std::proofs::lemmas::Bool::Decides::nat_tests), unfolding(crate::specs::Fitted::fitted_of))]
#[unsafe(no_mangle)]
pub extern "C" fn measured_sqrt_all(y: &mut [f64], x: &[f64]) -> bool
    ensures value { result ≡ fitted_of x.now y.old true false }
    ensures y_after { y.new ≡ fitted_of x.now y.old (roots x.now) y.old }
{
    if x.len() != y.len() {
        return false;
    }
    roots(y, x);
    true
}

// x·y, or a NaN
#[tactic(auto, using(std::proofs::lemmas::Bool::Decides::nat_tests), unfolding(crate::specs::Fitted::fitted_of))]
#[unsafe(no_mangle)]
pub extern "C" fn measured_dot(x: &[f64], y: &[f64]) -> f64
    ensures { result ≡ fitted_of y.now x.now (dot x.now y.now) nan }
{
    if y.len() != x.len() {
        return 0.0 / 0.0;
    }
    folds::dot(x, y)
}

// y = a·x + b·y, and whether it was done
#[tactic(auto, using(std::proofs::lemmas::Bool::Decides::nat_tests), unfolding(crate::specs::Fitted::fitted_of))]
#[unsafe(no_mangle)]
pub extern "C" fn measured_axpby(y: &mut [f64], a: f64, x: &[f64], b: f64) -> bool
    ensures value { result ≡ fitted_of x.now y.old true false }
    ensures y_after { y.new ≡ fitted_of x.now y.old (axpby a x.now b y.old) y.old }
{
    if x.len() != y.len() {
        return false;
    }
    vecaxpby::axpby(y, a, x, b);
    true
}
