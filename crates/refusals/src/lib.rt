// What is refused: document 01's refusals, each with its number; in specs/ the refusal table as a type.
#![tactic(auto)]

ghost use Rattle.std.specs.Prelude.{◌≡◌, [], ◌∷◌, Ok, Err};
ghost use Rattle.refusals.specs.Rows.{number_of, row, by_table};

// The refusals of document 01, by their numbers.
#[derive(Clone, Copy, Debug, PartialEq, Eq)]
pub enum Refusal {
    // Fewer than two bytes remain.
    NoRecord = 1,
    // The book has no such kind.
    UnknownKind,
    // A bit that stands, or a number that is not 0, that the kind lacks.
    StrayNumber,
    // Fewer bytes remain than the record's length.
    RecordCutShort,
    // A field that is present is 0.
    ZeroPresent,
    // The book found holds a value outside its limits.
    BookOutOfLimits,
    // A field is out of its range, also at opening.
    OutOfRange,
    // The month or the settled state forbids it.
    Forbidden,
    // A reconciliation runs already.
    StillRuns,
    // A settlement of no sales.
    NothingSold,
    // An adjustment of no more than a tenth of the annual fuel cost.
    TooSmall,
    // The next book would hold a value outside its limits.
    NextOutOfLimits,
    // The writer's buffer is too short.
    BufferTooShort,
}

impl Refusal {
    // Document 01's number, of which `from` would not say whose it is; nothing but `as` gives an enum's.
    #[tactic(auto, unfolding(crate::specs::Rows::number_of))]
    pub fn number(self) -> u8
        ensures { result ≡ number_of self }
    {
        self as u8
    }
}

// A row of a refusal table: its refusal, where its condition holds.
#[inline]
#[tactic(auto, unfolding(crate::specs::Rows::refusal_by, crate::specs::Rows::by_table))]
pub fn refuse_if(condition: bool, refusal: Refusal) -> Result<(), Refusal>
    ensures { result ≡ by_table (row refusal condition ∷ []) (Ok tt) Err }
{
    if condition { Err(refusal) } else { Ok(()) }
}
