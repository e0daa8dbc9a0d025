// A guess at the digits of a square root (document 02, item 2). New: it ports no lines. Of it nothing is proved but that it is safe: crate root
// checks it exactly, and only a root's time rests on the numbers below. The file is Rust too, and compare/roots counts by it how often the guess
// is wrong.
#![tactic(auto)]

// The line that is .0 + .1 * x at x.
#[derive(Clone, Copy)]
pub struct Line(pub f64, pub f64);

// Near 1 / (2√x) on the k-th of 64 parts, the first 32 of which cut [1/2, 1) and the others [1, 2): within 2^-14.3 of it. A match and not an array,
// since the compiler makes a table of it, and would write an array out at each call.
fn chord(k: u64) -> Line {
    match k {
        0 => Line(1.05253, -0.690925),
        1 => Line(1.0367, -0.660215),
        2 => Line(1.02157, -0.631715),
        3 => Line(1.00707, -0.60521),
        4 => Line(0.99318, -0.580505),
        5 => Line(0.979845, -0.55744),
        6 => Line(0.96703, -0.53586),
        7 => Line(0.95471, -0.51564),
        8 => Line(0.94285, -0.496657),
        9 => Line(0.931415, -0.478812),
        10 => Line(0.92039, -0.462012),
        11 => Line(0.90975, -0.446171),
        12 => Line(0.89947, -0.431215),
        13 => Line(0.88953, -0.417077),
        14 => Line(0.87991, -0.403694),
        15 => Line(0.8706, -0.391012),
        16 => Line(0.861575, -0.378981),
        17 => Line(0.852825, -0.367555),
        18 => Line(0.84434, -0.356691),
        19 => Line(0.8361, -0.346351),
        20 => Line(0.8281, -0.336502),
        21 => Line(0.820325, -0.327111),
        22 => Line(0.81276, -0.318149),
        23 => Line(0.805405, -0.30959),
        24 => Line(0.798245, -0.301406),
        25 => Line(0.791275, -0.293577),
        26 => Line(0.78448, -0.286081),
        27 => Line(0.77786, -0.2789),
        28 => Line(0.771405, -0.272013),
        29 => Line(0.765105, -0.265406),
        30 => Line(0.75896, -0.259061),
        31 => Line(0.75296, -0.252966),
        32 => Line(0.744255, -0.244279),
        33 => Line(0.73306, -0.233421),
        34 => Line(0.722355, -0.223345),
        35 => Line(0.712105, -0.213974),
        36 => Line(0.702285, -0.205239),
        37 => Line(0.692855, -0.197084),
        38 => Line(0.683795, -0.189455),
        39 => Line(0.67508, -0.182306),
        40 => Line(0.666695, -0.175594),
        41 => Line(0.65861, -0.169286),
        42 => Line(0.650815, -0.163346),
        43 => Line(0.64329, -0.157745),
        44 => Line(0.63602, -0.152457),
        45 => Line(0.62899, -0.147459),
        46 => Line(0.62219, -0.142728),
        47 => Line(0.615605, -0.138244),
        48 => Line(0.609225, -0.13399),
        49 => Line(0.60304, -0.12995),
        50 => Line(0.59704, -0.126109),
        51 => Line(0.591215, -0.122454),
        52 => Line(0.585555, -0.118971),
        53 => Line(0.580055, -0.115652),
        54 => Line(0.57471, -0.112483),
        55 => Line(0.569505, -0.109456),
        56 => Line(0.564445, -0.106563),
        57 => Line(0.559515, -0.103795),
        58 => Line(0.55471, -0.101145),
        59 => Line(0.55003, -0.098606),
        60 => Line(0.545465, -0.096171),
        61 => Line(0.54101, -0.093835),
        62 => Line(0.536665, -0.091592),
        _ => Line(0.532425, -0.089437),
    }
}

// Of a pattern, whatever its exponent: the root of the x in [1/2, 2) that has its digits, and an exponent as odd or even. The line gives h, near
// 1 / (2√x). With s = 2xh, near √x, and sh = 1/2 - r both lack the factor 1 / √(1 - 2r) = 1 + r + 3r² / 2 + .. = 1 + q. Adding 3 * 2^26 and taking it
// away leaves u, 26 digits of the root, so that u² and x - u² are exact. For v = √x - u that is 2√x v - v², so v is (x - u² + v²) / (2√x), where
// s (1 + q) - u will do on the right. The last sum rounds, and is then the nearest double but for two in a million. By 1e-24 less it is so next to a
// power of 4 too, where √x lies so little below the middle of two doubles that it does not show.
pub fn root(bits: u64) -> f64 {
    let pattern = bits % 0x20_0000_0000_0000 + 0x3fe0_0000_0000_0000;
    let x = f64::from_bits(pattern);
    let line = chord((pattern >> 47) % 64);
    let h = line.0 + line.1 * x;
    let s = (x + x) * h;
    let r = 0.5 - s * h;
    let u = s + s * r + 201326592.0 - 201326592.0;
    let q = r + 1.5 * r * r;
    let v = s - u + s * q;
    u + (x - u * u - 1e-24 + v * v) * (h + h * q)
}
