// Why a call is refused, each with its number in the table.
ghost use Rattle.std.specs.Prelude.{◌≡◌, Result};
ghost use Rattle.refusals.specs.Numbers.{number_of, number};

#[derive(Clone, Copy, Debug, PartialEq, Eq)]
pub enum Refusal {
    Length = 1,
    Coefficient = 2,
    Shuffle = 3,
    Block = 4,
    Scratch = 5,
    Position = 6,
    List = 7,
    Explained = 8,
    Row = 9,
}

impl From<Refusal> for u32 {
    ghost from_gives = { λ refusal n. n ≡ number_of refusal };

    fn from(refusal: Refusal) -> u32 {
        refusal as u32
    }
}

// The number of an answer, for C: 0 where nothing is refused.
pub fn number(answer: Result<(), Refusal>) -> u32
    ensures { result ≡ number answer }
{
    match answer {
        Ok(()) => 0,
        Err(refusal) => refusal.into(),
    }
}
