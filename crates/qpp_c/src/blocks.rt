// The calls that move the symbols of a lent block.
ghost use Rattle.std.specs.Prelude.{pos};
ghost use Rattle.permuting.specs.Blocks.{interleave, deinterleave};
ghost use Rattle.triples.specs.Shuffles.{triple, quadratic};
ghost use Rattle.qpp.specs.Promises.{Moves};

use refusals::number;

#[unsafe(no_mangle)]
pub extern "C" fn qpp_interleave_u8(
    k: u32,
    f1: u32,
    f2: u32,
    block: &mut [u8],
    scratch: &mut [u8],
) -> u32
    ensures { Moves interleave (quadratic (triple k f1 f2)) 0 block.old scratch.old result block.new scratch.new }
{
    number(qpp::interleave(k, f1, f2, block, scratch))
}

#[unsafe(no_mangle)]
pub extern "C" fn qpp_interleave_i16(
    k: u32,
    f1: u32,
    f2: u32,
    block: &mut [i16],
    scratch: &mut [u8],
) -> u32
    ensures { Moves interleave (quadratic (triple k f1 f2)) (pos 0) block.old scratch.old result block.new scratch.new }
{
    number(qpp::interleave(k, f1, f2, block, scratch))
}

#[unsafe(no_mangle)]
pub extern "C" fn qpp_deinterleave_u8(
    k: u32,
    f1: u32,
    f2: u32,
    block: &mut [u8],
    scratch: &mut [u8],
) -> u32
    ensures { Moves deinterleave (quadratic (triple k f1 f2)) 0 block.old scratch.old result block.new scratch.new }
{
    number(qpp::deinterleave(k, f1, f2, block, scratch))
}

#[unsafe(no_mangle)]
pub extern "C" fn qpp_deinterleave_i16(
    k: u32,
    f1: u32,
    f2: u32,
    block: &mut [i16],
    scratch: &mut [u8],
) -> u32
    ensures { Moves deinterleave (quadratic (triple k f1 f2)) (pos 0) block.old scratch.old result block.new scratch.new }
{
    number(qpp::deinterleave(k, f1, f2, block, scratch))
}
