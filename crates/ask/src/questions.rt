// What a line asks: a call with its arguments, and no word after them.

use asking::lists::{Bytes, List, Trouble, take_list};
use asking::words::{Fault, Words};
use qpp::Walker;
use std::alloc::Global;
use triples::Triple;

#[derive(Drop)]
pub enum Question {
    Accept(Triple),
    Address(Triple, u32),
    Reciprocal(Triple),
    Spread(Triple),
    Inverse(Triple),
    Arp(Triple, Vec<u16>),
    Addresses(Triple, Vec<u16>),
    WalkerStart(Triple),
    WalkerStep(Walker),
    InterleaveU8(Move<Bytes>),
    DeinterleaveU8(Move<Bytes>),
    InterleaveI16(Move<Vec<i16>>),
    DeinterleaveI16(Move<Vec<i16>>),
    Explain(Triple),
    TurboRow(u32),
    TurboEncode(Encoding),
    TurboEncodeCrc(Encoding),
}

// A block to be moved by a triple, and the scratch for that.
#[derive(Drop)]
pub struct Move<B> {
    pub triple: Triple,
    pub block: B,
    pub scratch: Vec<u8>,
}

// A block of k bits to be encoded, and the lists that its three streams go into.
#[derive(Drop)]
pub struct Encoding {
    pub k: u32,
    pub input: Vec<u8>,
    pub d0: Vec<u8>,
    pub d1: Vec<u8>,
    pub d2: Vec<u8>,
}

impl Question {
    pub fn read(alloc: Global, words: &mut Words<'_>) -> Result<Question, Trouble> {
        let question = take_call(alloc, words)?;
        words.end()?;
        Ok(question)
    }
}

fn take_call(alloc: Global, words: &mut Words<'_>) -> Result<Question, Trouble> {
    Ok(match words.take_word()? {
        b"accept" => Question::Accept(take_triple(words)?),
        b"address" => Question::Address(take_triple(words)?, words.take_number()?),
        b"reciprocal" => Question::Reciprocal(take_triple(words)?),
        b"spread" => Question::Spread(take_triple(words)?),
        b"inverse" => Question::Inverse(take_triple(words)?),
        b"arp" => Question::Arp(take_triple(words)?, take_list(alloc, words)?),
        b"addresses" => Question::Addresses(take_triple(words)?, take_list(alloc, words)?),
        b"walker_start" => Question::WalkerStart(take_triple(words)?),
        b"walker_step" => Question::WalkerStep(take_walker(words)?),
        b"interleave_u8" => Question::InterleaveU8(take_move(alloc, words)?),
        b"deinterleave_u8" => Question::DeinterleaveU8(take_move(alloc, words)?),
        b"interleave_i16" => Question::InterleaveI16(take_move(alloc, words)?),
        b"deinterleave_i16" => Question::DeinterleaveI16(take_move(alloc, words)?),
        b"explain" => Question::Explain(take_triple(words)?),
        b"turbo_row" => Question::TurboRow(words.take_number()?),
        b"turbo_encode" => Question::TurboEncode(take_encoding(alloc, words)?),
        b"turbo_encode_crc" => Question::TurboEncodeCrc(take_encoding(alloc, words)?),
        _ => return Err(Trouble::Word(Fault::NoCall)),
    })
}

// `alloc` goes beside the words, and not with them: a call without lists takes no memory.
fn take_triple(words: &mut Words<'_>) -> Result<Triple, Fault> {
    Ok(Triple {
        k: words.take_number()?,
        f1: words.take_number()?,
        f2: words.take_number()?,
    })
}

fn take_walker(words: &mut Words<'_>) -> Result<Walker, Fault> {
    Ok(Walker {
        triple: take_triple(words)?,
        at: words.take_number()?,
    })
}

// A list of bytes that is shown in numbers, also where it came as a text.
fn take_bytes(alloc: Global, words: &mut Words<'_>) -> Result<Vec<u8>, Trouble> {
    let bytes: Bytes = take_list(alloc, words)?;
    Ok(bytes.into_vec())
}

fn take_move<B: List>(alloc: Global, words: &mut Words<'_>) -> Result<Move<B>, Trouble> {
    Ok(Move {
        triple: take_triple(words)?,
        block: take_list(alloc, words)?,
        scratch: take_bytes(alloc, words)?,
    })
}

fn take_encoding(alloc: Global, words: &mut Words<'_>) -> Result<Encoding, Trouble> {
    Ok(Encoding {
        k: words.take_number()?,
        input: take_bytes(alloc, words)?,
        d0: take_bytes(alloc, words)?,
        d1: take_bytes(alloc, words)?,
        d2: take_bytes(alloc, words)?,
    })
}
