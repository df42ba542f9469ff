// The encoder's calls under their names for C, which include/turbo.h declares. Each is the library's call, with its promise.
#![tactic(auto)]

ghost use Rattle.turbo.specs.Promises.{RowOf, Encodes};

use refusals::number;
use turbo::Row;

#[unsafe(no_mangle)]
pub extern "C" fn turbo_row(k: u32) -> Row
    ensures { RowOf k result }
{
    turbo::row_of(k).into()
}

#[unsafe(no_mangle)]
pub extern "C" fn turbo_encode(
    k: u32,
    input: &[u8],
    d0: &mut [u8],
    d1: &mut [u8],
    d2: &mut [u8],
) -> u32
    ensures { Encodes k input.now d0.old d1.old d2.old result d0.new d1.new d2.new }
{
    number(turbo::encode(k, input, d0, d1, d2))
}
