// affine_ds, circ_op, inv_circ_op, lambda_inv_circ_op of one cone of a list (document 01, "Second-order rules" and "Nonnegative rules"; of
// marks document 02, item 4), over the cone's place. For each: by the cone's kind, on the cone's own ranges, and the call. Written by
// tools/surface.
#![tactic(auto, using(answers::proofs::Laws::outcomes))]

ghost use Rattle.std.specs.Prelude.{◌≡◌, [], ◌∷◌, length};
ghost use Rattle.answers.specs.Refusal.{Fit};
ghost use Rattle.answers.specs.Outcome.{tells, of_answer, ◌⨾◌};
ghost use Rattle.conelist.specs.Layout.{least_dim, Open};
ghost use Rattle.conecalls.specs.Deed.{comes_at, works_at};
ghost use Rattle.list_jordan.specs.Jordan.{kind_affine_ds, affine_ds_unmarked, affine_ds_deed, kind_circ_op, circ_op_deed, kind_inv_circ_op, inv_circ_op_deed, kind_lambda_inv_circ_op, lambda_inv_circ_op_unmarked, lambda_inv_circ_op_deed};

use answers::Refusal;
use conelist::{Kind, Place};

// ---- affine_ds (source documents 000, lines 258 to 260, and 001, lines 110 to 115): ds = lambda's Jordan product with itself; of a
// nonnegative cone ds = lambda*lambda

fn kind_affine_ds(kind: Kind, ds: &mut [f64], lambda: &[f64])
    requires { Fit (least_dim kind) (length ds.old) (length lambda.now ∷ []) }
    ensures { ds.new ≡ kind_affine_ds kind lambda.now }
{
    match kind {
        Kind::Nonnegative(n) => nn_jordan::affine_ds(ds, lambda),
        Kind::SecondOrder(n) => soc_jordan::circ_op(ds, lambda, lambda),
    }
}

fn affine_ds_in(p: Place, ds: &mut [f64], lambda: &[f64])
    requires { Open p ((length ds.old, p.entries) ∷ (length lambda.now, p.entries) ∷ []) }
    ensures { ds.new ⨾ tt ≡ (works_at p affine_ds_unmarked ds.old lambda.now).news }
{
    let at = p.start;
    let kind = p.kind;
    let end = at + kind.dim();
    kind_affine_ds(kind, &mut ds[at..end], &lambda[at..end]);
}

pub fn affine_ds_at(p: Place, ds: &mut [f64], lambda: &[f64], marks: &[u8]) -> Result<(), Refusal>
    ensures { tells (of_answer result) (ds.new ⨾ tt) ≡ comes_at p affine_ds_deed ds.old lambda.now marks.now }
{
    let entries = p.entries;
    let count = p.count;
    let same = (ds.len() == entries) & (lambda.len() == entries) & (marks.len() == count);
    p.check(same)?;
    marks::check_scaled(p, marks)?;
    affine_ds_in(p, ds, lambda);
    Ok(())
}

// ---- circ_op (source documents 000, lines 347 to 349 and 360 to 367, and 001, lines 206 to 208 and 218 to 225): x = the Jordan product of
// y and z; of a nonnegative cone x = y*z

fn kind_circ_op(kind: Kind, x: &mut [f64], y: &[f64], z: &[f64])
    requires { Fit (least_dim kind) (length x.old) (length y.now ∷ length z.now ∷ []) }
    ensures { x.new ≡ kind_circ_op kind y.now z.now }
{
    match kind {
        Kind::Nonnegative(n) => nn_jordan::circ_op(x, y, z),
        Kind::SecondOrder(n) => soc_jordan::circ_op(x, y, z),
    }
}

fn circ_op_in(p: Place, x: &mut [f64], y: &[f64], z: &[f64])
    requires { Open p ((length x.old, p.entries) ∷ (length y.now, p.entries) ∷ (length z.now, p.entries) ∷ []) }
    ensures { x.new ⨾ tt ≡ (works_at p circ_op_deed x.old y.now z.now).news }
{
    let at = p.start;
    let kind = p.kind;
    let end = at + kind.dim();
    kind_circ_op(kind, &mut x[at..end], &y[at..end], &z[at..end]);
}

pub fn circ_op_at(p: Place, x: &mut [f64], y: &[f64], z: &[f64]) -> Result<(), Refusal>
    ensures { tells (of_answer result) (x.new ⨾ tt) ≡ comes_at p circ_op_deed x.old y.now z.now }
{
    let entries = p.entries;
    let same = (x.len() == entries) & (y.len() == entries) & (z.len() == entries);
    p.check(same)?;
    circ_op_in(p, x, y, z);
    Ok(())
}

// ---- inv_circ_op (source documents 000, lines 351 to 353 and 369 to 382, and 001, lines 210 to 212 and 227 to 234): the x whose Jordan
// product with y is z; of a nonnegative cone x = z/y

fn kind_inv_circ_op(kind: Kind, x: &mut [f64], y: &[f64], z: &[f64])
    requires { Fit (least_dim kind) (length x.old) (length y.now ∷ length z.now ∷ []) }
    ensures { x.new ≡ kind_inv_circ_op kind y.now z.now }
{
    match kind {
        Kind::Nonnegative(n) => nn_inverse::inv_circ_op(x, y, z),
        Kind::SecondOrder(n) => soc_inverse::inv_circ_op(x, y, z),
    }
}

fn inv_circ_op_in(p: Place, x: &mut [f64], y: &[f64], z: &[f64])
    requires { Open p ((length x.old, p.entries) ∷ (length y.now, p.entries) ∷ (length z.now, p.entries) ∷ []) }
    ensures { x.new ⨾ tt ≡ (works_at p inv_circ_op_deed x.old y.now z.now).news }
{
    let at = p.start;
    let kind = p.kind;
    let end = at + kind.dim();
    kind_inv_circ_op(kind, &mut x[at..end], &y[at..end], &z[at..end]);
}

pub fn inv_circ_op_at(p: Place, x: &mut [f64], y: &[f64], z: &[f64]) -> Result<(), Refusal>
    ensures { tells (of_answer result) (x.new ⨾ tt) ≡ comes_at p inv_circ_op_deed x.old y.now z.now }
{
    let entries = p.entries;
    let same = (x.len() == entries) & (y.len() == entries) & (z.len() == entries);
    p.check(same)?;
    inv_circ_op_in(p, x, y, z);
    Ok(())
}

// ---- lambda_inv_circ_op (source documents 000, lines 325 to 327, and 001, lines 177 to 179): the x whose Jordan product with lambda is z;
// of a nonnegative cone x = z/lambda

fn kind_lambda_inv_circ_op(kind: Kind, x: &mut [f64], z: &[f64], lambda: &[f64])
    requires { Fit (least_dim kind) (length x.old) (length z.now ∷ length lambda.now ∷ []) }
    ensures { x.new ≡ kind_lambda_inv_circ_op kind z.now lambda.now }
{
    match kind {
        Kind::Nonnegative(n) => nn_inverse::inv_circ_op(x, lambda, z),
        Kind::SecondOrder(n) => soc_inverse::inv_circ_op(x, lambda, z),
    }
}

fn lambda_inv_circ_op_in(p: Place, x: &mut [f64], z: &[f64], lambda: &[f64])
    requires { Open p ((length x.old, p.entries) ∷ (length z.now, p.entries) ∷ (length lambda.now, p.entries) ∷ []) }
    ensures { x.new ⨾ tt ≡ (works_at p lambda_inv_circ_op_unmarked x.old z.now lambda.now).news }
{
    let at = p.start;
    let kind = p.kind;
    let end = at + kind.dim();
    kind_lambda_inv_circ_op(kind, &mut x[at..end], &z[at..end], &lambda[at..end]);
}

pub fn lambda_inv_circ_op_at(
    p: Place,
    x: &mut [f64],
    z: &[f64],
    lambda: &[f64],
    marks: &[u8],
) -> Result<(), Refusal>
    ensures { tells (of_answer result) (x.new ⨾ tt) ≡ comes_at p lambda_inv_circ_op_deed x.old z.now lambda.now marks.now }
{
    let entries = p.entries;
    let count = p.count;
    let same = (x.len() == entries)
        & (z.len() == entries)
        & (lambda.len() == entries)
        & (marks.len() == count);
    p.check(same)?;
    marks::check_scaled(p, marks)?;
    lambda_inv_circ_op_in(p, x, z, lambda);
    Ok(())
}
