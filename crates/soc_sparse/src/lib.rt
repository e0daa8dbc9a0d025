// The terms of the second-order cone's sparse expansion (source document 000, lines 187 to 207). The caller has checked the lengths.
#![tactic(auto, unfolding(crate::specs::Sparse::square_of, crate::specs::Sparse::sparse_d, crate::specs::Sparse::sparse_u, crate::specs::Sparse::sparse_v))]

ghost use Rattle.std.specs.Prelude.{◌≡◌, cond, [], ◌∷◌, length};
ghost use Rattle.vecmath.specs.Double.{◌⊘◌, 𝟏};
ghost use Rattle.vecmath.specs.Vector.{sumsq};
ghost use Rattle.tails.specs.Tail.{tail};
ghost use Rattle.answers.specs.Refusal.{Fit};
ghost use Rattle.soc_sparse.specs.Sparse.{square_of, sparse_d, sparse_u, sparse_v};

fn sparse_u(u: &mut [f64], w: &[f64], wsq: f64, d: f64)
    requires fit { Fit 2 (length w.now) (length u.old ∷ []) }
    requires wsq_value { wsq ≡ square_of w.now }
    requires d_value { d ≡ sparse_d w.now }
    ensures { u.new ≡ sparse_u w.now u.old }
{
    let u0 = root::sqrt(wsq - d);
    let u1 = 2.0 * w[0] / u0;
    tails_write::set_first(u, u0);
    tails_write::axpby(u, u1, w, 0.0);
}

fn sparse_v(v: &mut [f64], w: &[f64], wsq: f64, wsqinv: f64)
    requires fit { Fit 2 (length w.now) (length v.old ∷ []) }
    requires wsq_value { wsq ≡ square_of w.now }
    requires wsqinv_value { wsqinv ≡ 𝟏 ⊘ square_of w.now }
    ensures { v.new ≡ sparse_v w.now v.old }
{
    let v1 = root::sqrt(2.0 * (2.0 + wsqinv) / (2.0 * wsq - wsqinv));
    tails_write::set_first(v, 0.0);
    tails_write::axpby(v, v1, w, 0.0);
}

// The sparse expansion's terms u, v, d, which a dense cone leaves; w1sq is w₁·w₁.
pub fn expand(sparse: bool, w: &[f64], w1sq: f64, u: &mut [f64], v: &mut [f64], d: &mut f64)
    requires fit { Fit 2 (length w.now) (length u.old ∷ length v.old ∷ []) }
    requires w1sq_value { w1sq ≡ sumsq (tail w.now) }
    ensures u_after { u.new ≡ cond sparse (sparse_u w.now u.old) u.old }
    ensures v_after { v.new ≡ cond sparse (sparse_v w.now v.old) v.old }
    ensures d_after { d.new ≡ cond sparse (sparse_d w.now) d.old }
{
    if sparse {
        let wsq = w[0] * w[0] + w1sq;
        let wsqinv = 1.0 / wsq;
        *d = 0.5 * wsqinv;
        sparse_u(u, w, wsq, *d);
        sparse_v(v, w, wsq, wsqinv);
    }
}
