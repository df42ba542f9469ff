// A block of bits, a byte each.
ghost use Rattle.std.specs.Prelude.{[], ◌∷◌, length};
ghost use Rattle.refusals.specs.Numbers.{number};
ghost use Rattle.refusals.specs.Refusals.{First, no_block, no_bits};
ghost use Rattle.refusals.specs.Largest.{Largest};

use crate::Refusal;

// The largest of the bytes, and 0 of none. A loop with no way out in its midst takes many bytes at a time.
fn largest(bytes: &[u8]) -> u8
    ensures { Largest bytes.now (length bytes.now) result }
{
    let mut most = 0;
    for &byte in bytes {
        most = byte.max(most);
    }
    most
}

// Has a block k bytes, each 0 or 1?
pub fn bits(k: u32, block: &[u8]) -> Result<(), Refusal>
    ensures { First (no_block k (length block.now) ∷ no_bits block.now ∷ []) (number result) }
{
    if block.len() != k as usize {
        return Err(Refusal::Block);
    }
    if largest(block) > 1 {
        return Err(Refusal::Block);
    }
    Ok(())
}
