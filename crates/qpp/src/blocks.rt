// The calls that move the symbols of a lent block, of any kind. The directions stay two functions: what they share is `movable`, and a
// mover handed in as a closure would have to be told again, in a clause at the parameter, what it asks and what it moves.
ghost use Rattle.permuting.specs.Blocks.{marks_of, interleave, deinterleave};
ghost use Rattle.triples.specs.Shuffles.{triple, quadratic};
ghost use Rattle.refusals.specs.Numbers.{number};
ghost use Rattle.refusals.specs.Refusals.{shuffle_tests, block_tests};
ghost use Rattle.refusals.specs.Leads.{Leads};
ghost use Rattle.qpp.specs.Promises.{Moves};

use refusals::Refusal;
use triples::Triple;

// May a block and a scratch of these lengths be moved by the triple?
fn movable(t: Triple, block: usize, scratch: usize) -> Result<(), Refusal>
    ensures { Leads (shuffle_tests (quadratic t)) (block_tests t.k (marks_of t.k) block scratch) (number result) }
{
    refusals::accept(t)?;
    refusals::sizes(t.k, block, scratch)
}

// Place i comes to hold the symbol that stood at f(i).
pub fn interleave<T: Copy>(
    k: u32,
    f1: u32,
    f2: u32,
    block: &mut [T],
    scratch: &mut [u8],
) -> Result<(), Refusal>
    ensures { (d : T) → Moves interleave (quadratic (triple k f1 f2)) d block.old scratch.old (number result) block.new scratch.new }
{
    let t = Triple { k, f1, f2 };
    movable(t, block.len(), scratch.len())?;
    moving::interleave(maps::map_of(t), block, scratch);
    Ok(())
}

// Place f(i) comes to hold the symbol that stood at i.
pub fn deinterleave<T: Copy>(
    k: u32,
    f1: u32,
    f2: u32,
    block: &mut [T],
    scratch: &mut [u8],
) -> Result<(), Refusal>
    ensures { (d : T) → Moves deinterleave (quadratic (triple k f1 f2)) d block.old scratch.old (number result) block.new scratch.new }
{
    let t = Triple { k, f1, f2 };
    movable(t, block.len(), scratch.len())?;
    moving::deinterleave(maps::map_of(t), block, scratch);
    Ok(())
}
