// Why a call is refused. Each refusal has the number that callers in C and the program `setup` tell.
#![tactic(auto)]

ghost use Rattle.std.specs.Prelude.{◌≡◌};
ghost use Rattle.refusal.specs.Refusal.{answer_number, refusal_number};

// A refusal, by rising number from 1 on.
#[derive(Clone, Copy, Debug, PartialEq, Eq)]
pub enum Refusal {
    // A parameter, or a cell whose label is asked for, is outside its range.
    Parameter,
    // The share flag is 0 in a lookup mode that needs it to be 1.
    ShareFlag,
    // There are no gates, or more than 128, or not three words for each.
    GateCount,
    // A gate's kind, degree or number of constants is outside its range.
    GateRecord,
    // The lookup gate is missing, or stands where it may not, or is the only gate.
    LookupGate,
    // There are several gates, none of which is evaluated or the lookup gate.
    NothingEvaluated,
    // A gate has more constants than are allowed.
    Constants,
    // The gates find no place in a selector tree under any target.
    NoPlace,
    // No representatives of the copy columns were found.
    NoLabels,
    // A buffer is too short.
    ShortBuffer,
    // A word is not below p.
    NotAnElement,
    // A gate is not listed, or a row is cut short or has more constants than its gate.
    RowRecord,
    // There are more rows, S words or cells than the section takes.
    TooMany,
    // A cell names a variable that is not below V.
    Variable,
    // A table is cut short, has another width than W, is one too many or has rows past N, or there is no lookup.
    Table,
    // Rows, S words or cells are missing.
    Incomplete,
    // A gate is in no row.
    UnusedGate,
    // A scratch word is not below p, or a seen variable's first cell is outside the columns.
    Scratch,
    // The plan or the state is made up, never opened, or finished.
    MadeUp,
    // There are not eight parameters, or the words are no whole listing or no list of calls.
    Listing,
    // No gate of kind 1 is listed, and padding adds rows of one.
    NoMarker,
    // The length after padding passes 65,536.
    TooLong,
    // A row of a kind 2 gate would switch on the gate on the all-0 path, which is not of kind 1.
    MarkerRow,
}

impl Refusal {
    // Its number.
    pub fn number(self) -> u64
        ensures { result ≡ refusal_number self }
    {
        match self {
            Refusal::Parameter => 1,
            Refusal::ShareFlag => 2,
            Refusal::GateCount => 3,
            Refusal::GateRecord => 4,
            Refusal::LookupGate => 5,
            Refusal::NothingEvaluated => 6,
            Refusal::Constants => 7,
            Refusal::NoPlace => 8,
            Refusal::NoLabels => 9,
            Refusal::ShortBuffer => 10,
            Refusal::NotAnElement => 11,
            Refusal::RowRecord => 12,
            Refusal::TooMany => 13,
            Refusal::Variable => 14,
            Refusal::Table => 15,
            Refusal::Incomplete => 16,
            Refusal::UnusedGate => 17,
            Refusal::Scratch => 18,
            Refusal::MadeUp => 19,
            Refusal::Listing => 20,
            Refusal::NoMarker => 21,
            Refusal::TooLong => 22,
            Refusal::MarkerRow => 23,
        }
    }
}

// What an answer is as a number: 0 where the call was accepted.
pub fn answer_number<T>(answer: &Result<T, Refusal>) -> u64
    ensures { result ≡ answer_number answer.now }
{
    match answer {
        Ok(_) => 0,
        Err(refusal) => refusal.number(),
    }
}

// Whether a call was accepted, without what it answers.
pub fn outcome<T>(answer: &Result<T, Refusal>) -> Result<(), Refusal>
    ensures { answer_number result ≡ answer_number answer.now }
{
    match answer {
        Ok(_) => Ok(()),
        Err(refusal) => Err(*refusal),
    }
}
