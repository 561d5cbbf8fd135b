// 01, 'Field': the Goldilocks field, of the words below p = 2^64 - 2^32 + 1. Each public function
// reads any word modulo p, and its result is below p.
#![tactic(auto)]

ghost use Rattle.std.specs.Prelude.{◌≡◌, ◌+◌, ◌*◌, ◌/◌, ◌%◌, ◌^◌};
ghost use Rattle.field.specs.Field.{p, fadd, fsub, fmul, fpow, is_non_residue};

pub const P: u64 = 18446744069414584321;

// 2^64 modulo p.
const EPSILON: u64 = 4294967295;

// x modulo p: a word is below 2 p.
pub fn reduce(x: u64) -> u64
    ensures { result ≡ x % p }
{
    if x < P { x } else { x - P }
}

// a + b. A sum past 2^64 wraps on purpose: it has lost 2^64, which is EPSILON modulo p.
pub fn add(a: u64, b: u64) -> u64
    ensures { result ≡ fadd a b }
{
    let x = reduce(a);
    let s = x.wrapping_add(b);
    let w = if s < x { s + EPSILON } else { s };
    reduce(w)
}

// a - b.
pub fn sub(a: u64, b: u64) -> u64
    ensures { result ≡ fsub a b }
{
    let x = reduce(a);
    let y = reduce(b);
    if y <= x { x - y } else { x + (P - y) }
}

// A word that is h * 2^64 + l modulo p: 2^64 is 2^32 - 1, and 2^96 is -1.
fn fold(h: u64, l: u64) -> u64
    ensures { result % p ≡ (h * 2 ^ 64 + l) % p }
{
    let hh = h >> 32;
    let hl = h % 0x1_0000_0000;
    let d = l.wrapping_sub(hh);
    let t = if l < hh { d - EPSILON } else { d };
    let m = hl * EPSILON;
    let s = t.wrapping_add(m);
    if s < m { s + EPSILON } else { s }
}

// a * b.
pub fn mul(a: u64, b: u64) -> u64
    ensures { result ≡ fmul a b }
{
    let product = u128::from(a) * u128::from(b);
    let high = (product >> 64) as u64;
    let low = (product % 0x1_0000_0000_0000_0000) as u64;
    reduce(fold(high, low))
}

// base to the power exp, by the exponent's bits from the lowest. Any word to the power 0 is 1.
pub fn pow(base: u64, exp: u64) -> u64
    ensures { result ≡ fpow base exp }
{
    let mut r: u64 = 1;
    let mut b = base;
    let mut e = exp;
    while 0 < e {
        if e % 2 == 1 {
            r = mul(r, b);
        }
        b = mul(b, b);
        e = e / 2;
    }
    r
}

// Whether c is a non-residue: c to the power (p - 1) / 2 is p - 1.
pub fn is_non_residue(c: u64) -> bool
    ensures { result ≡ is_non_residue c }
{
    pow(c, 9223372034707292160) == 18446744069414584320
}

// The generator of the 2^32 roots of unity, 7 to the power 2^32 - 1.
pub fn generator() -> u64
    ensures { result ≡ Rattle.field.specs.Field.generator }
{
    1753635133440165772
}
