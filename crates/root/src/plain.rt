// The square root the plain way, digit by digit, as it was before document 02's item 2: what bench/ and compare/ hold the root against. New: it
// ports no lines.
ghost use Rattle.std.specs.Prelude.{◌≡◌, T, from_bits};
ghost use Rattle.std.specs.Float.{binary64};
ghost use Rattle.std.specs.Float.Ieee.Positive.{positive};
ghost use Rattle.root.specs.Root.{root};

// The root of a finite value above zero, from its bit pattern.
fn positive_root(b: u64) -> f64
    requires { T (positive (from_bits binary64 b)) }
    ensures { result ≡ root (from_bits binary64 b) }
{
    let v = super::split(b);
    let m = v.m;
    let h = v.h;
    let c = super::drawn_root(m << h % 2);
    f64::from_bits((h / 2 << 52) + c)
}

// Where there are no digits to find it is the root itself.
pub fn sqrt(x: f64) -> f64
    ensures { result ≡ root x }
{
    if x > 0.0 {
        let b = f64::to_bits(x);
        if b != 0x7ff0_0000_0000_0000 {
            return positive_root(b);
        }
    }
    super::sqrt(x)
}
