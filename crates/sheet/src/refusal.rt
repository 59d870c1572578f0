// The reasons to turn an input down.
ghost use Rattle.std.specs.Prelude.{◌≡◌};
ghost use Rattle.sheet.specs.Refusals.{number, answer_of, numbered_answer};

// A reason to turn an input down (document 01, "Reasons to turn a sheet down, in checking order"; 11 to 13 by order 5 of document 02, 14
// by its order 7).
#[derive(Clone, Copy, Debug, PartialEq, Eq)]
pub enum Refusal {
    TextTooLong,
    TextEmpty,
    HeadMalformed,
    AgentsOutside,
    ItemsOutside,
    YardLineMalformed,
    EndMalformed,
    MarkTooGreat,
    SharesNotCovered,
    BufferTooShort,
    DivisionMalformed,
    ItemNotOnce,
    StatementFalse,
    AllowanceTooSmall,
}

impl Refusal {
    // Its number, which is all that a caller is told.
    pub fn number(self) -> u8
        ensures { result ≡ number self }
    {
        match self {
            Refusal::TextTooLong => 1,
            Refusal::TextEmpty => 2,
            Refusal::HeadMalformed => 3,
            Refusal::AgentsOutside => 4,
            Refusal::ItemsOutside => 5,
            Refusal::YardLineMalformed => 6,
            Refusal::EndMalformed => 7,
            Refusal::MarkTooGreat => 8,
            Refusal::SharesNotCovered => 9,
            Refusal::BufferTooShort => 10,
            Refusal::DivisionMalformed => 11,
            Refusal::ItemNotOnce => 12,
            Refusal::StatementFalse => 13,
            Refusal::AllowanceTooSmall => 14,
        }
    }
}

// A result with the number of its reason, as it goes to those outside.
pub fn numbered<T>(answer: Result<T, Refusal>) -> Result<T, u8>
    ensures { numbered_answer result ≡ answer_of answer }
{
    answer.map_err(|reason| reason.number())
}
