// Products and quotients of two whole slices, entry by entry (document 01, "Numbers"). The caller owes equal lengths.
#![tactic(auto)]

ghost use Rattle.std.specs.Prelude.{◌≡◌, length};
ghost use Rattle.vecmath.specs.Vector.{products, quotients};

// x = y·z, entry by entry
pub fn multiply(x: &mut [f64], y: &[f64], z: &[f64])
    requires { (length y.now ≡ length x.old) × (length z.now ≡ length x.old) }
    ensures { x.new ≡ products y.now z.now }
{
    for (i, v) in x.iter_mut().enumerate() {
        *v = y[i] * z[i];
    }
}

// x = z/y, entry by entry: the operands stand as in the source's `_inv_circ_op(x, y, z)`
pub fn divide(x: &mut [f64], y: &[f64], z: &[f64])
    requires { (length y.now ≡ length x.old) × (length z.now ≡ length x.old) }
    ensures { x.new ≡ quotients z.now y.now }
{
    for (i, v) in x.iter_mut().enumerate() {
        *v = z[i] / y[i];
    }
}
