// Why a call has no rows: the question that was answered no (specification 9.1).
ghost use Rattle.std.specs.Prelude.{◌≡◌};
ghost use Rattle.vocabulary.specs.Inner.Refusal.{question_of};

// The question that said no. There is no question 8 and no question 10 (specification 9.10, 9.12).
#[derive(Clone, Copy, Debug, PartialEq, Eq)]
pub enum Refusal {
    LentMemory = 1,
    Form = 2,
    Tables = 3,
    Cells = 4,
    Joins = 5,
    Conditions = 6,
    Crossing = 7,
    Order = 9,
    Results = 11,
    KeyColumns = 12,
    AllConditions = 13,
}

impl Refusal {
    // The question's number.
    pub fn number(self) -> u8
        ensures { result ≡ question_of self }
    {
        self as u8
    }
}
