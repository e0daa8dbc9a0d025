// The norm of a sum that is not stored: z + alpha·dz (document 01, "Numbers"), and a·x + b·y (document 02, item 4). The caller owes equal
// lengths.
#![tactic(auto)]

ghost use Rattle.std.specs.Prelude.{◌≡◌, length};
ghost use Rattle.vecmath.specs.Double.{𝟏};
ghost use Rattle.vecmath.specs.Vector.{sumsq, norm, sumsq_shifted, norm_shifted, scale_of, axpby};

fn sumsq_shifted(z: &[f64], dz: &[f64], alpha: f64) -> f64
    requires { length dz.now ≡ length z.now }
    ensures { result ≡ sumsq_shifted z.now dz.now alpha }
{
    let mut s = 0.0;
    for (i, zi) in z.iter().enumerate() {
        let v = zi + alpha * dz[i];
        s += v * v;
    }
    s
}

// The norm of z + alpha·dz, which is not stored.
pub fn norm_shifted(z: &[f64], dz: &[f64], alpha: f64) -> f64
    requires { length dz.now ≡ length z.now }
    ensures { result ≡ norm_shifted z.now dz.now alpha }
{
    root::sqrt(sumsq_shifted(z, dz, alpha))
}

fn sumsq_axpby(a: f64, x: &[f64], b: f64, y: &[f64]) -> f64
    requires { length y.now ≡ length x.now }
    ensures { result ≡ sumsq (axpby a x.now 𝟏 (scale_of b y.now)) }
{
    let mut s = 0.0;
    for (i, xi) in x.iter().enumerate() {
        let v = a * xi + 1.0 * (b * y[i]);
        s += v * v;
    }
    s
}

// The norm of what y would hold if it were scaled by b and a·x then added.
pub fn norm_axpby(a: f64, x: &[f64], b: f64, y: &[f64]) -> f64
    requires { length y.now ≡ length x.now }
    ensures { result ≡ norm (axpby a x.now 𝟏 (scale_of b y.now)) }
{
    root::sqrt(sumsq_axpby(a, x, b, y))
}
