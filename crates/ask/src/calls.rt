// The answer to a question: the number of refusal and the fields of the call that it asks for, and the lists after it.

use crate::questions::{Encoding, Move, Question};
use asking::crc;
use asking::lists::List;
use asking::printing::Joined;
use qpp::{ArpForm, InverseForm, Reason, Start, Step, Value, Walker};
use refusals::{Refusal, number};
use std::io;
use std::io::Write;
use triples::Triple;
use turbo::Row;

impl Question {
    // Makes the call.
    pub fn answer<W: Write>(self, out: &mut W) -> io::Result<()> {
        match self {
            Question::Accept(t) => show(out, &[number(qpp::accept(t.k, t.f1, t.f2))]),
            Question::Address(t, x) => show_value(out, qpp::address(t.k, t.f1, t.f2, x).into()),
            Question::Reciprocal(t) => show_value(out, qpp::reciprocal(t.k, t.f1, t.f2).into()),
            Question::Spread(t) => show_value(out, qpp::spread(t.k, t.f1, t.f2).into()),
            Question::Inverse(t) => show_inverse(out, qpp::inverse(t.k, t.f1, t.f2).into()),
            Question::Arp(t, list) => answer_arp(out, t, list),
            Question::Addresses(t, list) => answer_addresses(out, t, list),
            Question::WalkerStart(t) => show_start(out, qpp::walker_start(t.k, t.f1, t.f2).into()),
            Question::WalkerStep(walker) => show_step(out, walker.step().into()),
            Question::InterleaveU8(m) => answer_move(out, m, interleave),
            Question::DeinterleaveU8(m) => answer_move(out, m, deinterleave),
            Question::InterleaveI16(m) => answer_move(out, m, interleave),
            Question::DeinterleaveI16(m) => answer_move(out, m, deinterleave),
            Question::Explain(t) => show_reason(out, qpp::explain(t.k, t.f1, t.f2).into()),
            Question::TurboRow(k) => show_row(out, turbo::row_of(k).into()),
            Question::TurboEncode(e) => answer_encoding(out, e, show_list),
            Question::TurboEncodeCrc(e) => answer_encoding(out, e, show_checksum),
        }
    }
}

fn show<W: Write>(out: &mut W, fields: &[u32]) -> io::Result<()> {
    write!(out, "{}", Joined(fields, " "))
}

// A list after the fields, or after another list.
fn show_list<W: Write, L: List>(out: &mut W, list: &L) -> io::Result<()> {
    write!(out, " ")?;
    list.show(out)
}

fn show_checksum<W: Write>(out: &mut W, list: &Vec<u8>) -> io::Result<()> {
    write!(out, " {}", crc::of_list(list))
}

// What C is handed, field by field. No `Display`: these types are the library's, which writes nothing.
fn show_value<W: Write>(out: &mut W, v: Value) -> io::Result<()> {
    show(out, &[v.number, v.value])
}

fn show_inverse<W: Write>(out: &mut W, inverse: InverseForm) -> io::Result<()> {
    let coefficients = Joined(&inverse.a, " ");
    write!(out, "{} {} {coefficients}", inverse.number, inverse.degree)
}

fn show_reason<W: Write>(out: &mut W, reason: Reason) -> io::Result<()> {
    let Reason {
        number,
        y,
        x,
        address,
        prime,
    } = reason;
    show(out, &[number, y, x, address, prime])
}

fn show_row<W: Write>(out: &mut W, row: Row) -> io::Result<()> {
    show(out, &[row.number, row.f1, row.f2])
}

fn show_start<W: Write>(out: &mut W, start: Start) -> io::Result<()> {
    let Walker { triple, at } = start.walker;
    show(out, &[start.number, triple.k, triple.f1, triple.f2, at])
}

fn show_step<W: Write>(out: &mut W, step: Step) -> io::Result<()> {
    let Walker { triple, at } = step.walker;
    let Triple { k, f1, f2 } = triple;
    show(out, &[step.number, step.address, k, f1, f2, at])
}

fn answer_arp<W: Write>(out: &mut W, t: Triple, mut list: Vec<u16>) -> io::Result<()> {
    let form = ArpForm::from(qpp::arp(t.k, t.f1, t.f2, &mut list));
    show(out, &[form.number, form.p, form.q])?;
    show_list(out, &list)
}

fn answer_addresses<W: Write>(out: &mut W, t: Triple, mut list: Vec<u16>) -> io::Result<()> {
    let answer = qpp::addresses(t.k, t.f1, t.f2, &mut list);
    show(out, &[number(answer)])?;
    show_list(out, &list)
}

// The library's movers by a triple, for either width; two, as the calls are two.
fn interleave<T: Copy>(t: Triple, block: &mut [T], scratch: &mut [u8]) -> Result<(), Refusal> {
    qpp::interleave(t.k, t.f1, t.f2, block, scratch)
}

fn deinterleave<T: Copy>(t: Triple, block: &mut [T], scratch: &mut [u8]) -> Result<(), Refusal> {
    qpp::deinterleave(t.k, t.f1, t.f2, block, scratch)
}

fn answer_move<W, B, F>(out: &mut W, mut moved: Move<B>, mover: F) -> io::Result<()>
where
    W: Write,
    B: List,
    F: FnOnce(Triple, &mut [B::Entry], &mut [u8]) -> Result<(), Refusal>,
    requires { F.IsAlwaysCallable mover }
{
    let answer = mover(moved.triple, moved.block.entries(), &mut moved.scratch);
    show(out, &[number(answer)])?;
    show_list(out, &moved.block)?;
    show_list(out, &moved.scratch)
}

fn answer_encoding<W, F>(out: &mut W, asked: Encoding, show_stream: F) -> io::Result<()>
where
    W: Write,
    F: Fn(&mut W, &Vec<u8>) -> io::Result<()>,
    requires { F.IsAlwaysCallable show_stream }
{
    let Encoding {
        k,
        input,
        mut d0,
        mut d1,
        mut d2,
    } = asked;
    let answer = turbo::encode(k, &input, &mut d0, &mut d1, &mut d2);
    show(out, &[number(answer)])?;
    for stream in [&d0, &d1, &d2] {
        show_stream(out, stream)?;
    }
    Ok(())
}
