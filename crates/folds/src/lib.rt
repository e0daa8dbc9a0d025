// The vector helpers (document 01, "Numbers") that fold a whole slice to one number, from left to right. The caller owes equal lengths.
#![tactic(auto)]

ghost use Rattle.std.specs.Prelude.{◌≡◌, length};
ghost use Rattle.vecmath.specs.Vector.{dot, sumsq, norm};

pub fn dot(x: &[f64], y: &[f64]) -> f64
    requires { length y.now ≡ length x.now }
    ensures { result ≡ dot x.now y.now }
{
    let mut s = 0.0;
    // By index into y: over a zip, or by its `fold`, it costs a tenth more at n = 64.
    for (i, v) in x.iter().enumerate() {
        s += v * y[i];
    }
    s
}

pub fn sumsq(x: &[f64]) -> f64
    ensures { result ≡ sumsq x.now }
{
    dot(x, x)
}

pub fn norm(x: &[f64]) -> f64
    ensures { result ≡ norm x.now }
{
    root::sqrt(sumsq(x))
}
