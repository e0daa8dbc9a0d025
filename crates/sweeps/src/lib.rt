// What bench/ calls of a cone of a list over its place, exported to C: mul_w and update_scaling. A place is eight numbers: the cone's index,
// start, kind and dimension, where its block begins, and how many entries, cones and block numbers the list has. Of our own; nothing is ported.
#![tactic(auto, unfolding(crate::specs::Numbers::place_by))]

ghost use Rattle.std.specs.Prelude.{◌≡◌, [], ◌∷◌};
ghost use Rattle.answers.specs.Outcome.{◌⨾◌};
ghost use Rattle.conecalls.specs.Deed.{comes_at};
ghost use Rattle.list_products.specs.Product.{mul_w_deed};
ghost use Rattle.list_scaling.specs.Scaling.{update_scaling_deed};
ghost use Rattle.codes.specs.Code.{whole, export, values_of, export_of};
ghost use Rattle.sweeps.specs.Numbers.{place_by};

use conelist::Place;

fn place(n: [usize; 8]) -> Place
    ensures { result ≡ place_by n }
{
    Place {
        no: 0,
        index: n[0],
        start: n[1],
        kind: records::kind_of(n[2], n[3]),
        block: n[4],
        entries: n[5],
        count: n[6],
        blocks: n[7],
    }
}

#[unsafe(no_mangle)]
pub extern "C" fn measured_mul_w_at(
    at: &[usize; 8],
    y: &mut [f64],
    x: &[f64],
    alpha: f64,
    beta: f64,
    w: &[f64],
    eta: &[f64],
    marks: &[u8],
) -> u8
    ensures { export result [] (y.new ⨾ tt)
        ≡ export_of values_of [] (comes_at (place_by at.now) (mul_w_deed alpha beta) y.old x.now w.now eta.now marks.now) }
{
    let p = place(*at);
    codes::answer(list_products::mul_w_at(p, y, x, alpha, beta, w, eta, marks))
}

#[unsafe(no_mangle)]
pub extern "C" fn measured_update_scaling_at(
    at: &[usize; 8],
    s: &[f64],
    z: &[f64],
    w: &mut [f64],
    lambda: &mut [f64],
    u: &mut [f64],
    v: &mut [f64],
    eta: &mut [f64],
    d: &mut [f64],
    marks: &mut [u8],
    truth: &mut u8,
) -> u8
    ensures { export result (whole truth.new ∷ []) (w.new ⨾ lambda.new ⨾ u.new ⨾ v.new ⨾ eta.new ⨾ d.new ⨾ marks.new ⨾ tt)
        ≡ export_of values_of (whole truth.old ∷ []) (comes_at (place_by at.now) update_scaling_deed w.old lambda.old u.old v.old eta.old d.old marks.old s.now z.now) }
{
    let p = place(*at);
    codes::scaling(
        list_scaling::update_scaling_at(p, s, z, w, lambda, u, v, eta, d, marks),
        truth,
    )
}
