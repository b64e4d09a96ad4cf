// The calls that a call file may name, and their numbers.
ghost use Rattle.std.specs.Prelude.{◌≡◌};
ghost use Rattle.v2calls.specs.Calls.{call_number, CallOf};

// A call; in the order of the numbers 1 to 11.
#[derive(Clone, Copy, Debug, PartialEq, Eq)]
pub enum Call {
    Encode,
    Check,
    Locate,
    SmallWrite,
    RawStore,
    Rebuild,
    Fill,
    Choose,
    Column,
    Prices,
    Stock,
}

impl Call {
    // The call of a number; none where the number is unknown.
    pub(crate) fn read(number: u8) -> Option<Call>
        ensures { CallOf number result }
    {
        match number {
            1 => Some(Call::Encode),
            2 => Some(Call::Check),
            3 => Some(Call::Locate),
            4 => Some(Call::SmallWrite),
            5 => Some(Call::RawStore),
            6 => Some(Call::Rebuild),
            7 => Some(Call::Fill),
            8 => Some(Call::Choose),
            9 => Some(Call::Column),
            10 => Some(Call::Prices),
            11 => Some(Call::Stock),
            _ => None,
        }
    }

    // The number of the call.
    #[tactic(auto, unfolding(crate::specs::Calls::call_number))]
    pub(crate) fn number(self) -> usize
        ensures { result ≡ call_number self }
    {
        match self {
            Call::Encode => 1,
            Call::Check => 2,
            Call::Locate => 3,
            Call::SmallWrite => 4,
            Call::RawStore => 5,
            Call::Rebuild => 6,
            Call::Fill => 7,
            Call::Choose => 8,
            Call::Column => 9,
            Call::Prices => 10,
            Call::Stock => 11,
        }
    }
}
