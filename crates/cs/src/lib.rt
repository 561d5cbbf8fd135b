// Variable and Witness, separate wrapped words as the original has them. Neither passes for a
// row or a gate number.
#![tactic(auto)]

ghost use Rattle.std.specs.Prelude.{◌≡◌, leb};
ghost use Rattle.pieces.specs.Cells.{placeholder, index_of};

// A word with bit 63 set names nothing.
const PLACEHOLDER_BIT: u64 = 9223372036854775808;

// 2^48: the bits below are the index.
const INDEX_BOUND: u64 = 281474976710656;

// A cell word: a placeholder, or the index of a variable.
#[derive(Clone, Copy)]
pub struct Variable(pub u64);

impl Variable {
    pub fn placeholder() -> Self
        ensures { result.0 ≡ placeholder }
    {
        Variable(PLACEHOLDER_BIT)
    }

    pub fn is_placeholder(self) -> bool
        ensures { result ≡ leb placeholder self.0 }
    {
        PLACEHOLDER_BIT <= self.0
    }

    // The low 48 bits, all of them: the original cuts to 32.
    pub fn as_variable_index(self) -> u64
        ensures { result ≡ index_of self.0 }
    {
        self.0 % INDEX_BOUND
    }

    pub fn from_variable_index(index: u64) -> Self
        ensures { result.0 ≡ index }
    {
        Variable(index)
    }
}

// The same for a witness, which no copy column holds.
#[derive(Clone, Copy)]
pub struct Witness(pub u64);

impl Witness {
    pub fn placeholder() -> Self
        ensures { result.0 ≡ placeholder }
    {
        Witness(PLACEHOLDER_BIT)
    }

    pub fn is_placeholder(self) -> bool
        ensures { result ≡ leb placeholder self.0 }
    {
        self.0 >= PLACEHOLDER_BIT
    }

    pub fn as_witness_index(self) -> u64
        ensures { result ≡ index_of self.0 }
    {
        let word = self.0;
        word % INDEX_BOUND
    }

    pub fn from_witness_index(index: u64) -> Self
        ensures { result.0 ≡ index }
    {
        Witness(index)
    }
}
