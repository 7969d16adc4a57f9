// "Numbers given back when a call says no": the rows of the table, in the order of their numbers.
ghost use Rattle.std.specs.Prelude.{◌≡◌};
ghost use Rattle.rules.specs.Numbers.{number_of};

#[derive(Clone, Copy, Debug, PartialEq, Eq)]
pub enum Refusal {
    Decisions,
    Lengths,
    Index,
    Fixing,
    Switches,
    Weight,
    AnswerLength,
    AnswerByte,
    BlockLength,
    Check,
    Edition,
    Body,
    Text,
}

impl From<Refusal> for u8 {
    ghost from_gives = { λ refusal number. number ≡ number_of refusal };

    fn from(refusal: Refusal) -> u8 {
        match refusal {
            Refusal::Decisions => 1,
            Refusal::Lengths => 2,
            Refusal::Index => 3,
            Refusal::Fixing => 4,
            Refusal::Switches => 5,
            Refusal::Weight => 6,
            Refusal::AnswerLength => 7,
            Refusal::AnswerByte => 8,
            Refusal::BlockLength => 9,
            Refusal::Check => 10,
            Refusal::Edition => 11,
            Refusal::Body => 12,
            Refusal::Text => 13,
        }
    }
}
