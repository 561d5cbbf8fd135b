// Functions on words that every layer above needs. They know nothing of fields or circuits.
#![tactic(auto)]

ghost use Rattle.std.specs.Prelude.{◌≡◌, ℕ, ◌%◌, ◌^◌, max};
ghost use Rattle.base.specs.Exponent.{exponent, is_power};

// The greater of two words.
pub fn greater(a: u64, b: u64) -> u64
    ensures { result ≡ max a b }
{
    a.max(b)
}

// A power of two: its exponent, and its value as far as a word holds it.
#[derive(Clone, Copy)]
pub struct Power {
    pub exponent: u64,
    pub value: u64,
}

// 2^63, the largest power of two that is a word.
const LARGEST_POWER: u64 = 9223372036854775808;

// The smallest power of two not below n. Above 2^63 that is 2^64, whose word is 0.
pub fn power_above(n: u64) -> Power
    ensures { (result.exponent ≡ exponent n) × (result.value ≡ 2 ^ exponent n % 2 ^ 64) }
{
    if LARGEST_POWER < n {
        return Power {
            exponent: 64,
            value: 0,
        };
    }
    let value = n.next_power_of_two();
    Power {
        exponent: u64::from(value.ilog2()),
        value,
    }
}

// Whether n is a power of two.
pub fn is_power(n: u64) -> bool
    ensures { result ≡ is_power n }
{
    power_above(n).value == n
}
