// The lists of a line.
ghost use Rattle.std.specs.Prelude.{◌≡◌, ℕ, ◌≤◌, IfOk, OnOk, vec_len, length};

use crate::printing::Joined;
use crate::scan::find;
use crate::words::{Fault, Words, number_of};
use std::alloc::{AllocError, Global};
use std::fmt::Display;
use std::io;
use std::io::Write;
use std::num::TryFromIntError;
use thiserror::Error;

// The longest list: as long as the longest block, and a little more.
const LONGEST: u64 = 8200;

// Why a word is not taken as a list: it is none, or there is no room for it.
#[derive(Debug, Drop, Error)]
pub enum Trouble {
    #[error(transparent)]
    Word(#[from] Fault),
    #[error(transparent)]
    Memory(#[from(alloc)] AllocError),
}

// The number of an entry, which may have a minus; no `parse`, as in `number_of`. Past 64 bits it is the least or the largest, which no entry is.
fn signed(text: &[u8]) -> Option<i64> {
    match text.strip_prefix(b"-".as_slice()) {
        Some(digits) => number_of(digits).map(|size| 0i64.saturating_sub_unsigned(size)),
        None => number_of(text).map(|size| 0i64.saturating_add_unsigned(size)),
    }
}

// How often an entry stands, by what follows it: a star and a number, or nothing.
fn times_of(text: &[u8]) -> Option<u64> {
    match text.split_first() {
        Some((_, digits)) => number_of(digits),
        None => Some(1),
    }
}

// The entries of a list, never more than the longest has.
#[derive(Drop)]
struct Entries<T> {
    items: Vec<T>,
    ghost short: { vec_len items ≤ 8200 },
}

impl<T: Copy + TryFrom<i64, Error = TryFromIntError>> Entries<T> {
    // Adds an entry, with a star and its count or without.
    fn add(&mut self, text: &[u8]) -> Result<(), Trouble> {
        let (number, star) = text.split_at(find(text, 0, text.len(), b'*'));
        let number = signed(number).ok_or(Fault::NoList)?;
        let times = times_of(star).ok_or(Fault::NoList)?;
        let entry = T::try_from(number).map_err(|_| Fault::OutOfRange)?;
        let size = times.saturating_add(self.items.len() as u64);
        if size > LONGEST {
            return Err(Trouble::Word(Fault::LongList));
        }
        // Most entries stand once, and a push takes less.
        if times == 1 {
            self.items.push(entry)?;
        } else {
            self.items.resize(size as usize, entry)?;
        }
        Ok(())
    }

    // Numbers with commas between them. A dash is the empty list.
    fn add_all(&mut self, word: &[u8]) -> Result<(), Trouble> {
        if word == b"-".as_slice() {
            return Ok(());
        }
        for text in word.split(|byte| *byte == b',') {
            self.add(text)?;
        }
        Ok(())
    }

    fn read(alloc: Global, word: &[u8]) -> Result<Vec<T>, Trouble>
        ensures { IfOk result (λ list. vec_len list ≤ 8200) }
    {
        let mut list = Entries {
            items: Vec::new(alloc),
        };
        list.add_all(word)?;
        Ok(list.items)
    }
}

// A list as one word has it.
pub trait List: Drop {
    type Entry;

    ghost count: { Self → ℕ };

    fn read(alloc: Global, word: &[u8]) -> Result<Self, Trouble>
        ensures { IfOk result (λ list. count list ≤ 8200) };

    fn entries(&mut self) -> &mut [Self::Entry]
        ensures { length result.now ≡ count self.old };

    // Written as it is read. No `Display`: a text may be any bytes.
    fn show<W: Write>(&self, out: &mut W) -> io::Result<()>;
}

// The next word as a list.
pub fn take_list<L: List>(alloc: Global, words: &mut Words<'_>) -> Result<L, Trouble>
    ensures { IfOk result (λ list. L.count list ≤ 8200) }
{
    L::read(alloc, words.take_word()?)
}

impl<T: Copy + Display + TryFrom<i64, Error = TryFromIntError>> List for Vec<T> {
    type Entry = T;

    ghost count = { λ list. vec_len list };

    fn read(alloc: Global, word: &[u8]) -> Result<Self, Trouble> {
        Entries::read(alloc, word)
    }

    fn entries(&mut self) -> &mut [T] {
        self
    }

    fn show<W: Write>(&self, out: &mut W) -> io::Result<()> {
        if self.is_empty() {
            return write!(out, "-");
        }
        write!(out, "{}", Joined(self, ","))
    }
}

// Bytes that came in numbers, or as a text, which is written as one again.
#[derive(Drop)]
pub enum Bytes {
    Numbers(Vec<u8>),
    Text(Vec<u8>),
}

impl Bytes {
    ghost use Rattle.asking.specs.Bytes.{bytes_of};

    pub fn into_vec(self) -> Vec<u8>
        ensures { result.items ≡ bytes_of self }
    {
        match self {
            Bytes::Numbers(bytes) | Bytes::Text(bytes) => bytes,
        }
    }
}

impl List for Bytes {
    ghost use Rattle.asking.specs.Bytes.{size_of};

    type Entry = u8;

    ghost count = { λ bytes. size_of bytes };

    // A word that begins with a letter is a text.
    fn read(alloc: Global, word: &[u8]) -> Result<Self, Trouble> {
        if !word.first().is_some_and(u8::is_ascii_alphabetic) {
            return Ok(Bytes::Numbers(Entries::read(alloc, word)?));
        }
        if word.len() as u64 > LONGEST {
            return Err(Trouble::Word(Fault::LongList));
        }
        Ok(Bytes::Text(Vec::from_slice(alloc, word)?))
    }

    fn entries(&mut self) -> &mut [u8] {
        match self {
            Bytes::Text(bytes) | Bytes::Numbers(bytes) => bytes,
        }
    }

    fn show<W: Write>(&self, out: &mut W) -> io::Result<()> {
        match self {
            Bytes::Numbers(bytes) => bytes.show(out),
            Bytes::Text(bytes) => out.write_all(bytes),
        }
    }
}

#[cfg(test)]
mod tests {
    use super::*;
    use std::test::Fail;

    fn shown<L: List>(alloc: Global, word: &[u8]) -> Result<Vec<u8>, Fail> {
        let list: L = take_list(alloc, &mut Words::of(word))?;
        let mut out = Vec::new(alloc);
        list.show(&mut out)?;
        Ok(out)
    }

    #[test]
    fn shows_what_it_read(rt: HostRuntime) -> Result<(), Fail> {
        let alloc = rt.alloc();
        let none = shown::<Vec<u16>>(alloc, b"-")?;
        assert_eq!(rt; none.as_slice(), b"-".as_slice());
        let symbols = shown::<Vec<i16>>(alloc, b"-32768,7*2,0*0")?;
        assert_eq!(rt; symbols.as_slice(), b"-32768,7,7".as_slice());
        let bytes = shown::<Bytes>(alloc, b"255*3")?;
        assert_eq!(rt; bytes.as_slice(), b"255,255,255".as_slice());
        let text = shown::<Bytes>(alloc, b"A*2,-")?;
        assert_eq!(rt; text.as_slice(), b"A*2,-".as_slice());
        Ok(())
    }
}
