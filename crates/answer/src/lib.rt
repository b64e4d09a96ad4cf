// The answers of every call with their numbers.
#![tactic(auto)]

ghost use Rattle.std.specs.Prelude.{◌≡◌};
ghost use Rattle.answer.specs.Answers.{refusal_number, number};

// Why a call was refused; in the order of the numbers 1 to 14.
#[derive(Clone, Copy, Debug, PartialEq, Eq)]
pub enum Refusal {
    // m is outside its range.
    BadRows,
    // n is outside its range.
    BadColumns,
    // w is outside its range, or m·n·w is over 65,536.
    BadSymbol,
    // The length of the stripe is not m·n·w.
    BadStripe,
    // The workspace of a rebuild is under 2·m·w bytes.
    SmallWorkspace,
    // A column is n or more, or a row is none that may be written.
    NoSuchPlace,
    // Both lost columns are the same.
    SameColumn,
    // A symbol is not w bytes long, or a buffer is under m·w bytes.
    BadBuffer,
    // The survivors disagree.
    Disagree,
    // A stock number is over 9.
    NoSuchStock,
    // The program knows no record of this kind.
    UnknownKind,
    // A record is too short, too long, or cut off by the end of the input.
    BadRecord,
    // The payload of a record is not as its kind wants it.
    BadPayload,
    // A record came before any accepted shape.
    NoShape,
}

// The answer of a call that gives nothing besides: done, or why it was refused.
pub type Answer = Result<(), Refusal>;

impl Refusal {
    // The number of the refusal.
    #[tactic(auto, unfolding(crate::specs::Answers::refusal_number))]
    pub fn number(self) -> usize
        ensures { result ≡ refusal_number self }
    {
        match self {
            Refusal::BadRows => 1,
            Refusal::BadColumns => 2,
            Refusal::BadSymbol => 3,
            Refusal::BadStripe => 4,
            Refusal::SmallWorkspace => 5,
            Refusal::NoSuchPlace => 6,
            Refusal::SameColumn => 7,
            Refusal::BadBuffer => 8,
            Refusal::Disagree => 9,
            Refusal::NoSuchStock => 10,
            Refusal::UnknownKind => 11,
            Refusal::BadRecord => 12,
            Refusal::BadPayload => 13,
            Refusal::NoShape => 14,
        }
    }
}

// The number of an answer: 0 where the call was done.
#[tactic(auto, unfolding(crate::specs::Answers::number))]
pub fn number<T: Copy>(answer: Result<T, Refusal>) -> usize
    ensures { result ≡ number answer }
{
    match answer {
        Ok(_) => 0,
        Err(refusal) => refusal.number(),
    }
}
