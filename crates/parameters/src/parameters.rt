// The eight parameter words, and the refusals 1 and 2.
ghost use Rattle.std.specs.Prelude.{◌≡◌, get_or};
ghost use Rattle.parameters.specs.Parameters.{parameters_at, range_number, flag_number, parameters_number, lookup_of};
ghost use Rattle.refusal.specs.Refusal.{answer_number};

use crate::lookup::LookupParameters;
use refusal::Refusal;

// "A: constants allowed, 0..16. S: specialised constant columns, 0..16. V: variables, 0..1,048,576." W is 1..16 in modes 1 to 4.
const MOST_CONSTANTS: u64 = 16;

const MOST_SPECIALISED: u64 = 16;

const MOST_VARIABLES: u64 = 1048576;

const MOST_WIDTH: u64 = 16;

// "parameters (8 words: N, C, A, S, V, mode, W, share flag)"
pub const PARAMETER_WORDS: usize = 8;

// N, C, A, S, V, mode, W and the share flag.
#[derive(Clone, Copy)]
pub struct Parameters {
    pub trace: u64,
    pub copy: u64,
    pub allowed: u64,
    pub specialised: u64,
    pub variables: u64,
    pub mode: u64,
    pub width: u64,
    pub share: u64,
}

// The word at a place, 0 past the end.
fn word_or_zero(words: &[u64], at: usize) -> u64
    ensures { result ≡ get_or words.now at 0 }
{
    words.get(at).copied().unwrap_or(0)
}

// The eight parameter words; one that is missing is 0.
pub fn parameters_at(words: &[u64]) -> Parameters
    ensures { result ≡ parameters_at words.now }
{
    Parameters {
        trace: word_or_zero(words, 0),
        copy: word_or_zero(words, 1),
        allowed: word_or_zero(words, 2),
        specialised: word_or_zero(words, 3),
        variables: word_or_zero(words, 4),
        mode: word_or_zero(words, 5),
        width: word_or_zero(words, 6),
        share: word_or_zero(words, 7),
    }
}

impl Parameters {
    // Whether each parameter is within its range.
    #[tactic(auto, unfolding(crate::specs::Parameters::range_number))]
    fn check_ranges(self) -> Result<(), Refusal>
        ensures { answer_number result ≡ range_number self }
    {
        if !labels::ranges_fit(self.trace, self.copy) {
            return Err(Refusal::Parameter);
        }
        if MOST_CONSTANTS < self.allowed {
            return Err(Refusal::Parameter);
        }
        if MOST_SPECIALISED < self.specialised {
            return Err(Refusal::Parameter);
        }
        if MOST_VARIABLES < self.variables {
            return Err(Refusal::Parameter);
        }
        if self.mode == 0 && self.width == 0 && self.share == 0 {
            return Ok(());
        }
        if self.mode == 0 || 4 < self.mode {
            return Err(Refusal::Parameter);
        }
        if self.width < 1 || MOST_WIDTH < self.width || 1 < self.share {
            return Err(Refusal::Parameter);
        }
        if self.mode == 4 && self.specialised < 1 {
            return Err(Refusal::Parameter);
        }
        Ok(())
    }

    // Flag 0 in mode 2 or 4.
    #[tactic(auto, unfolding(crate::specs::Parameters::flag_number))]
    fn check_flag(self) -> Result<(), Refusal>
        ensures { answer_number result ≡ flag_number self }
    {
        match self.mode {
            2 | 4 if self.share == 0 => Err(Refusal::ShareFlag),
            _ => Ok(()),
        }
    }

    // A parameter outside its range, then a missing share flag.
    pub fn check(self) -> Result<(), Refusal>
        ensures { answer_number result ≡ parameters_number self }
    {
        self.check_ranges()?;
        self.check_flag()
    }

    // The lookup mode that the words tell of.
    #[tactic(auto, unfolding(crate::specs::Parameters::lookup_of))]
    pub fn lookup(self) -> LookupParameters
        ensures { result ≡ lookup_of self }
    {
        let width = self.width;
        let share_table_id = self.share == 1;
        match self.mode {
            1 => LookupParameters::TableIdAsVariable {
                width,
                share_table_id,
            },
            2 => LookupParameters::TableIdAsConstant {
                width,
                share_table_id,
            },
            3 => LookupParameters::UseSpecializedColumnsWithTableIdAsVariable {
                width,
                share_table_id,
            },
            4 => LookupParameters::UseSpecializedColumnsWithTableIdAsConstant {
                width,
                share_table_id,
            },
            _ => LookupParameters::NoLookup,
        }
    }
}
