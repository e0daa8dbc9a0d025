// The product of two words of 64 digits, in two words. Of our own; nothing is ported. There is no wider number in the language: the halves of the
// factors are multiplied and added up, and on x86-64 and on Arm the compiler makes one instruction of each half.
#![tactic(auto)]

ghost use Rattle.std.specs.Prelude.{◌≡◌, ◌*◌, ◌/◌, ◌%◌, ◌^◌};

// The upper half.
pub fn high(x: u64, y: u64) -> u64
    ensures { result ≡ x * y / 2 ^ 64 }
{
    let x0 = x % 0x1_0000_0000;
    let x1 = x >> 32;
    let y0 = y % 0x1_0000_0000;
    let y1 = y >> 32;
    let first = x0 * y0;
    let second = x1 * y0 + (first >> 32);
    let third = x0 * y1 + second % 0x1_0000_0000;
    x1 * y1 + (second >> 32) + (third >> 32)
}

// The lower half.
pub fn low(x: u64, y: u64) -> u64
    ensures { result ≡ x * y % 2 ^ 64 }
{
    let x0 = x % 0x1_0000_0000;
    let x1 = x >> 32;
    let y0 = y % 0x1_0000_0000;
    let y1 = y >> 32;
    let first = x0 * y0;
    let second = x1 * y0 + (first >> 32);
    let third = x0 * y1 + second % 0x1_0000_0000;
    (third << 32) + first % 0x1_0000_0000
}
