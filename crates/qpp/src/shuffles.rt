// The calls that answer with a number alone.
ghost use Rattle.std.specs.Prelude.{◌≡◌, ◌%◌, ◌<◌};
ghost use Rattle.triples.specs.Shuffles.{triple, quadratic};
ghost use Rattle.refusals.specs.Numbers.{number};
ghost use Rattle.refusals.specs.Refusals.{Acceptance};
ghost use Rattle.qpp.specs.Promises.{Address, ReciprocalOf, SpreadOf};
ghost use Rattle.qpp.specs.Answers.{value_of};

use refusals::Refusal;
use triples::Triple;

// Is the triple a shuffle?
pub fn accept(k: u32, f1: u32, f2: u32) -> Result<(), Refusal>
    ensures { Acceptance (quadratic (triple k f1 f2)) (number result) }
{
    refusals::accept(Triple { k, f1, f2 })
}

// Where a counter stands in its block: the radio's does not return to zero at a block's end.
fn in_block(k: u32, x: u32) -> u32
    requires { 0 < k }
    ensures { (result ≡ x % k) × (result < k) }
{
    x % k
}

// The address of the position x.
pub fn address(k: u32, f1: u32, f2: u32, x: u32) -> Result<u32, Refusal>
    ensures { Address (quadratic (triple k f1 f2)) x (value_of result) }
{
    let t = Triple { k, f1, f2 };
    refusals::accept(t)?;
    Ok(triples::place(t, in_block(k, x) as usize) as u32)
}

// The reciprocal of f1 in the odd form.
pub fn reciprocal(k: u32, f1: u32, f2: u32) -> Result<u32, Refusal>
    ensures { ReciprocalOf (triple k f1 f2) (value_of result) }
{
    let t = Triple { k, f1, f2 };
    refusals::accept(t)?;
    Ok(inverting::reciprocal(t))
}

// The spread.
pub fn spread(k: u32, f1: u32, f2: u32) -> Result<u32, Refusal>
    ensures { SpreadOf (quadratic (triple k f1 f2)) (value_of result) }
{
    let t = Triple { k, f1, f2 };
    refusals::accept(t)?;
    Ok(spreading::spread(t) as u32)
}
