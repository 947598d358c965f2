ghost use Rattle.std.specs.Prelude.{◌≡◌};
ghost use Rattle.store.specs.Numbers.{number_of, outcome_number};

// Why a call was refused. A refusal's number is document 01's (specs/Numbers.antt); the cast to it stands in `From` alone.
#[derive(Clone, Copy, Debug, PartialEq, Eq)]
pub enum Refusal {
    BadImage = 1,
    Damaged = 2,
    BadKey = 3,
    BadValue = 4,
    Missing = 5,
    NoRoom = 6,
    TooShort = 7,
    Malformed = 8,
    SmallWork = 9,
}

impl From<Refusal> for u16 {
    ghost from_gives = { λ refusal n. n ≡ number_of refusal };

    fn from(refusal: Refusal) -> u16 {
        refusal as u16
    }
}

// The number of how a call went: the refusal's, or 0 if it was done.
pub fn number(outcome: Result<(), Refusal>) -> u16
    ensures { result ≡ outcome_number outcome }
{
    match outcome {
        Ok(()) => 0,
        Err(refusal) => refusal.into(),
    }
}
