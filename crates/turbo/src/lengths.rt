// The standard's row of a length.
ghost use Rattle.std.specs.Prelude.{◌≡◌, IfOk};
ghost use Rattle.turbo.specs.Promises.{RowOf};
ghost use Rattle.turbo.specs.Answers.{shown_row};

use refusals::Refusal;
use triples::Triple;

// The answer as C has it: a number of the table, and beside 0 the two coefficients.
#[repr(C)]
#[derive(Clone, Copy)]
pub struct Row {
    pub number: u32,
    pub f1: u32,
    pub f2: u32,
}

impl From<Result<Triple, Refusal>> for Row {
    ghost from_gives = { λ answer row. row ≡ shown_row answer };

    fn from(answer: Result<Triple, Refusal>) -> Row {
        match answer {
            Ok(t) => Row {
                number: 0,
                f1: t.f1,
                f2: t.f2,
            },
            Err(refusal) => Row {
                number: refusal.into(),
                f1: 0,
                f2: 0,
            },
        }
    }
}

// The row of a length, with the coefficients that the standard has for it.
pub fn row_of(k: u32) -> Result<Triple, Refusal>
    ensures coefficients { RowOf k (shown_row result) }
    ensures length { IfOk result (λ t. t.k ≡ k) }
{
    standard::row_of(k).ok_or(Refusal::Row)
}
