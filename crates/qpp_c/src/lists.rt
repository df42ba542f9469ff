// The calls that write into a lent list.
ghost use Rattle.triples.specs.Shuffles.{triple, quadratic};
ghost use Rattle.qpp.specs.Promises.{AddressList, ArpOf};

use qpp::ArpForm;
use refusals::number;

#[unsafe(no_mangle)]
pub extern "C" fn qpp_addresses(k: u32, f1: u32, f2: u32, list: &mut [u16]) -> u32
    ensures { AddressList (quadratic (triple k f1 f2)) list.old result list.new }
{
    number(qpp::addresses(k, f1, f2, list))
}

#[unsafe(no_mangle)]
pub extern "C" fn qpp_arp(k: u32, f1: u32, f2: u32, list: &mut [u16]) -> ArpForm
    ensures { ArpOf (triple k f1 f2) list.old result list.new }
{
    qpp::arp(k, f1, f2, list).into()
}
