// The inverse polynomial.
ghost use Rattle.triples.specs.Shuffles.{triple};
ghost use Rattle.qpp.specs.Promises.{InverseOf};
ghost use Rattle.qpp.specs.Answers.{inverse_form_of};

use inverting::Polynomial;
use refusals::Refusal;
use triples::Triple;

// The polynomial that sends every address back to its position.
pub fn inverse(k: u32, f1: u32, f2: u32) -> Result<Polynomial, Refusal>
    ensures { InverseOf (triple k f1 f2) (inverse_form_of result) }
{
    let t = Triple { k, f1, f2 };
    refusals::accept(t)?;
    Ok(inverting::inverse(t))
}
