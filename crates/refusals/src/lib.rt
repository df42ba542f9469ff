// The table of refusals. Each function answers as its tests lead, in the order of the table; a call asks one after the other.
#![tactic(auto)]

mod binary;
mod refusal;

ghost use Rattle.std.specs.Prelude.{◌≡◌, [], ◌∷◌, ◌≤◌};
ghost use Rattle.permuting.specs.Blocks.{marks_of};
ghost use Rattle.triples.specs.Shuffles.{quadratic};
ghost use Rattle.refusals.specs.Numbers.{number};
ghost use Rattle.refusals.specs.Refusals.{First, range_tests, Acceptance, block_tests, no_position, no_list, nothing_to_explain};
ghost use Rattle.refusals.specs.Leads.{Leads};

pub use binary::bits;
pub use refusal::{Refusal, number};
use triples::Triple;

const SHORTEST: u32 = 2;

const LONGEST: u32 = 8192;

// Are the numbers in range?
pub fn range(t: Triple) -> Result<(), Refusal>
    ensures { First (range_tests (quadratic t)) (number result) }
{
    if t.k < SHORTEST {
        return Err(Refusal::Length);
    }
    if t.k > LONGEST {
        return Err(Refusal::Length);
    }
    if t.f1 >= t.k {
        return Err(Refusal::Coefficient);
    }
    if t.f2 >= t.k {
        return Err(Refusal::Coefficient);
    }
    Ok(())
}

// Is the triple a shuffle?
pub fn accept(t: Triple) -> Result<(), Refusal>
    ensures { Acceptance (quadratic t) (number result) }
{
    range(t)?;
    if acceptance::permutes(t) {
        return Ok(());
    }
    Err(Refusal::Shuffle)
}

// Is the triple in range and no shuffle, so that there is something to explain?
pub fn explainable(t: Triple) -> Result<(), Refusal>
    ensures { Leads (range_tests (quadratic t)) (nothing_to_explain (quadratic t) ∷ []) (number result) }
{
    range(t)?;
    if acceptance::permutes(t) {
        return Err(Refusal::Explained);
    }
    Ok(())
}

// May a block and a scratch of these lengths serve for k symbols?
pub fn sizes(k: u32, block: usize, scratch: usize) -> Result<(), Refusal>
    requires { k ≤ 8192 }
    ensures { First (block_tests k (marks_of k) block scratch) (number result) }
{
    let places = k as usize;
    let marks = places.div_ceil(8); // a bit for each place
    if block != places {
        return Err(Refusal::Block);
    }
    if scratch < marks {
        return Err(Refusal::Scratch);
    }
    Ok(())
}

// Is x, where a walker made by hand stands, one of k positions?
pub fn position(k: u32, x: u32) -> Result<(), Refusal>
    ensures { First (no_position k x ∷ []) (number result) }
{
    if x >= k {
        return Err(Refusal::Position);
    }
    Ok(())
}

// Has a list of this size the entries that are needed?
pub fn entries(needed: usize, size: usize) -> Result<(), Refusal>
    ensures { First (no_list (λ n. n ≡ needed) size ∷ []) (number result) }
{
    if size < needed {
        return Err(Refusal::List);
    }
    Ok(())
}
