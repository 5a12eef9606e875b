// The refusals of 01's table that a call can give, each reason a case with its place; 15 is the program's own. The error of every step that may refuse.
#![tactic(auto)]

ghost use Rattle.std.specs.Prelude.{◌≡◌};
ghost use Rattle.refusals.specs.Said.{number_of, place_of};

#[derive(Clone, Copy)]
pub enum Refusal {
    Malformed,
    TooLarge,
    NoRoom,
    Missing(usize),
    Second(usize),
    Cycle(usize),
    NotAccepted,
    Empty,
    Unknown(usize),
    Repeated(usize),
    UnknownPort(usize),
    BadRecord(usize),
    Straddling(usize),
    TooLong(usize),
}

// A refusal's number in 01's table. The numbers are told to hosts, and are not the order of the cases, so each is written out.
pub fn number(x: Refusal) -> usize
    ensures { result ≡ number_of x }
{
    match x {
        Refusal::Malformed => 1,
        Refusal::TooLarge => 2,
        Refusal::NoRoom => 3,
        Refusal::Missing(_) => 4,
        Refusal::Second(_) => 5,
        Refusal::Cycle(_) => 6,
        Refusal::NotAccepted => 7,
        Refusal::Empty => 8,
        Refusal::Unknown(_) => 9,
        Refusal::Repeated(_) => 10,
        Refusal::UnknownPort(_) => 14,
        Refusal::BadRecord(_) => 12,
        Refusal::Straddling(_) => 13,
        Refusal::TooLong(_) => 11,
    }
}

// A refusal's place: 0 where its row of the table has no other.
pub fn place(x: Refusal) -> usize
    ensures { result ≡ place_of x }
{
    match x {
        Refusal::Malformed => 0,
        Refusal::TooLarge => 0,
        Refusal::NoRoom => 0,
        Refusal::Missing(k) => k,
        Refusal::Second(k) => k,
        Refusal::Cycle(v) => v,
        Refusal::NotAccepted => 0,
        Refusal::Empty => 0,
        Refusal::Unknown(i) => i,
        Refusal::Repeated(i) => i,
        Refusal::UnknownPort(i) => i,
        Refusal::BadRecord(i) => i,
        Refusal::Straddling(v) => v,
        Refusal::TooLong(needed) => needed,
    }
}
