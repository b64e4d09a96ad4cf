// The parity rule and the mathematics of losses: what the survivors of a stripe determine.
// Definitions and theorems; the only data is which columns are lost.
#![tactic(auto)]

ghost use Rattle.std.specs.Prelude.{◌≡◌};
ghost use Rattle.xor.specs.Tells.{Tells};
ghost use Rattle.rule.specs.Losses.{Beyond, Twice, Lost, named};

// Which columns are lost, by the numbers that the caller names.
#[derive(Clone, Copy)]
pub enum Losses {
    None,
    One(usize),
    Two(usize, usize),
}

// The losses that a count and two numbers name.
pub fn named(count: usize, a: usize, b: usize) -> Losses
    ensures { result ≡ named count a b }
{
    if count == 0 {
        return Losses::None;
    }
    if count == 1 {
        return Losses::One(a);
    }
    Losses::Two(a, b)
}

// Whether a column named lost is n or more.
pub fn beyond(n: usize, lost: Losses) -> bool
    ensures { Tells (Beyond n lost) result }
{
    match lost {
        Losses::None => false,
        Losses::One(a) => n <= a,
        Losses::Two(a, b) => n <= a || n <= b,
    }
}

// Whether both lost columns are the same.
pub fn twice(lost: Losses) -> bool
    ensures { Tells (Twice lost) result }
{
    match lost {
        Losses::None => false,
        Losses::One(_) => false,
        Losses::Two(a, b) => a == b,
    }
}

// Whether column c is named lost.
pub fn is_lost(lost: Losses, c: usize) -> bool
    ensures { Tells (Lost lost c) result }
{
    match lost {
        Losses::None => false,
        Losses::One(a) => c == a,
        Losses::Two(a, b) => c == a || c == b,
    }
}
