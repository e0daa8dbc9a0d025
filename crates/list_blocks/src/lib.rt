// The block Hs of one cone of a list, packed (document 01, "Second-order rules" and "Nonnegative rules"; source documents 000, lines 217 to
// 246, and 001, lines 96 to 101), over the cone's place: by the cone's kind, on the cone's own ranges, and the call, which needs a mark (document
// 02, item 4).
#![tactic(auto, using(answers::proofs::Laws::outcomes))]

ghost use Rattle.std.specs.Prelude.{◌≡◌, [], ◌∷◌, length};
ghost use Rattle.vecmath.specs.Double.{◌!◌};
ghost use Rattle.answers.specs.Refusal.{Fit};
ghost use Rattle.answers.specs.Outcome.{tells, of_answer, ◌⨾◌};
ghost use Rattle.conelist.specs.Layout.{dim, least_dim, block_dim, Open, range_of, with_block};
ghost use Rattle.conecalls.specs.Deed.{comes_at};
ghost use Rattle.list_blocks.specs.Block.{kind_hs, get_hs_deed};

use answers::Refusal;
use conelist::{Kind, Place};

// A nonnegative cone uses no η, d.
fn kind_hs(kind: Kind, hs: &mut [f64], w: &[f64], eta: f64, d: f64)
    requires fit { Fit (least_dim kind) (dim kind) (length w.now ∷ []) }
    requires hs_len { length hs.old ≡ block_dim kind }
    ensures { hs.new ≡ kind_hs kind w.now eta d }
{
    match kind {
        Kind::Nonnegative(n) => nn_blocks::get_hs(hs, w),
        Kind::SecondOrder(n) => soc_blocks::get_hs(hs, w, eta, d),
    }
}

fn hs_in(p: Place, hs: &mut [f64], w: &[f64], eta: &[f64], d: &[f64])
    requires { Open p ((length hs.old, p.blocks) ∷ (length w.now, p.entries) ∷ (length eta.now, p.count) ∷ (length d.now, p.count) ∷ []) }
    ensures { hs.new ≡ with_block p hs.old
        (kind_hs p.kind (range_of p w.now) (eta.now ! p.index) (d.now ! p.index)) }
{
    let at = p.start;
    let kind = p.kind;
    let k = p.index;
    let block = p.block;
    let end = at + kind.dim();
    let block_end = block + kind.block_dim();
    kind_hs(kind, &mut hs[block..block_end], &w[at..end], eta[k], d[k]);
}

pub fn get_hs_at(
    p: Place,
    hs: &mut [f64],
    w: &[f64],
    eta: &[f64],
    d: &[f64],
    marks: &[u8],
) -> Result<(), Refusal>
    ensures { tells (of_answer result) (hs.new ⨾ tt) ≡ comes_at p get_hs_deed hs.old w.now eta.now d.now marks.now }
{
    let entries = p.entries;
    let count = p.count;
    let blocks = p.blocks;
    let same = (hs.len() == blocks)
        & (w.len() == entries)
        & (eta.len() == count)
        & (d.len() == count)
        & (marks.len() == count);
    p.check(same)?;
    marks::check_set(p, marks)?;
    hs_in(p, hs, w, eta, d);
    Ok(())
}
