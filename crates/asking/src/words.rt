// The words of a line, from left to right, and what may be wrong with them.

ghost use Rattle.std.specs.Str.Parse.{digits_value};
ghost use Rattle.asking.specs.Words.{BeginsWith, BeginsWithNumber, BeginsWithNone, BeginsWithLarge};
ghost use Rattle.std.specs.Prelude.{◌≡◌, ◌≢◌, ◌⊎◌, ◌+◌, ◌-◌, ◌*◌, ◌^◌, ◌≤◌, ◌<◌, ◌↔◌, All, IsSome, IsNone, IsOk, IfSome, IfOk, IsErr, IsErrOf, IfErr, MatchOption, EachIndex, ℕ, length, slice_index, min};

use crate::scan::find;
use thiserror::Error;

// What is wrong with a word.
#[derive(Clone, Copy, Debug, PartialEq, Eq, Error)]
pub enum Fault {
    #[error("no such call")]
    NoCall,
    #[error("no number")]
    NoNumber,
    #[error("a number above 4294967295")]
    LargeNumber,
    #[error("no list")]
    NoList,
    #[error("an entry out of range")]
    OutOfRange,
    #[error("a list of more than 8200 entries")]
    LongList,
    #[error("too few words")]
    FewWords,
    #[error("too many words")]
    ManyWords,
}

// The line after the words that were asked for, and how many those are.
#[derive(Clone, Copy)]
pub struct Words<'a> {
    pub rest: &'a [u8],
    pub asked: u32,
}

impl<'a> Words<'a> {
    pub fn of(line: &'a [u8]) -> Self
        ensures rest { result.rest.now ≡ line.now }
        ensures asked { result.asked ≡ 0 }
    {
        Words {
            rest: line,
            asked: 0,
        }
    }

    // A word that is asked for counts also where the line has none.
    pub fn take_word(&mut self) -> Result<&'a [u8], Fault>
        ensures counted { self.new.asked ≡ min (self.old.asked + 1) (2 ^ 32 - 1) }
        ensures word { IfOk result (λ word. BeginsWith self.old.rest.now word.now self.new.rest.now) }
        ensures few { IsErr result ↔ All (λ byte. byte ≡ 32) self.old.rest.now }
        ensures fault { IfErr result (λ fault. (fault ≡ Fault.FewWords) × (self.new.rest ≡ self.old.rest)) }
    {
        self.asked = self.asked.saturating_add(1);
        let (word, rest) = first_word(self.rest).ok_or(Fault::FewWords)?;
        self.rest = rest;
        Ok(word)
    }

    // The next word as a number.
    pub fn take_number(&mut self) -> Result<u32, Fault>
        ensures counted { self.new.asked ≡ min (self.old.asked + 1) (2 ^ 32 - 1) }
        ensures number { IfOk result (λ number. BeginsWithNumber self.old.rest.now number self.new.rest.now) }
        ensures few { IsErrOf result Fault.FewWords ↔ All (λ byte. byte ≡ 32) self.old.rest.now }
        ensures none { IsErrOf result Fault.NoNumber → BeginsWithNone self.old.rest.now self.new.rest.now }
        ensures kinds { IfErr result (λ fault. (fault ≡ Fault.FewWords) ⊎ (fault ≡ Fault.NoNumber) ⊎ (fault ≡ Fault.LargeNumber)) }
        ensures large { IsErrOf result Fault.LargeNumber → BeginsWithLarge self.old.rest.now self.new.rest.now }
    {
        let word = self.take_word()?;
        let number = number_of(word).ok_or(Fault::NoNumber)?;
        u32::try_from(number).map_err(|_| Fault::LargeNumber)
    }

    // No word may be left.
    pub fn end(&mut self) -> Result<(), Fault>
        ensures counted { self.new.asked ≡ min (self.old.asked + 1) (2 ^ 32 - 1) }
        ensures ended { IsOk result ↔ All (λ byte. byte ≡ 32) self.old.rest.now }
        ensures fault { IfErr result (λ fault. fault ≡ Fault.ManyWords) }
    {
        match self.take_word() {
            Ok(_) => Err(Fault::ManyWords),
            Err(_) => Ok(()),
        }
    }
}

// The first place that holds no space.
fn first_other(line: &[u8]) -> Option<usize>
    ensures { MatchOption result
        (EachIndex line.now (λ k. slice_index line.now k ≡ 32))
        (λ at. (at < length line.now) × (slice_index line.now at ≢ 32) × ((k : ℕ) → k < at → slice_index line.now k ≡ 32)) }
{
    line.iter().position(|byte| *byte != b' ')
}

// The first word of a line, and the line after it.
fn first_word(line: &[u8]) -> Option<(&[u8], &[u8])>
    ensures word { IfSome result (λ parts. BeginsWith line.now parts.0.now parts.1.now) }
    ensures none { IsNone result ↔ All (λ byte. byte ≡ 32) line.now }
{
    let start = first_other(line)?;
    let (_, begun) = line.split_at(start);
    Some(begun.split_at(find(begun, 0, begun.len(), b' ')))
}

// The number that digits alone make; one past 64 bits counts as the largest, since every limit lies far below it. No `parse`: it takes a plus
// before the digits, and tells of a number past 64 bits as of a letter.
pub fn number_of(text: &[u8]) -> Option<u64>
    ensures some { IsSome result ↔ (0 < length text.now) × All (λ byte. (48 ≤ byte) × (byte ≤ 57)) text.now }
    ensures value { IfSome result (λ number. number ≡ min (digits_value 10 text.now) (2 ^ 64 - 1)) }
{
    if text.is_empty() || !text.iter().all(|byte| byte.is_ascii_digit()) {
        return None;
    }
    Some(value_of(text))
}

fn value_of(digits: &[u8]) -> u64
    requires { All (λ byte. (48 ≤ byte) × (byte ≤ 57)) digits.now }
    ensures { result ≡ min (digits_value 10 digits.now) (2 ^ 64 - 1) }
{
    let mut number: u64 = 0;
    for &digit in digits {
        number = longer(number, digit);
    }
    number
}

// A number with a digit more.
fn longer(number: u64, digit: u8) -> u64
    requires { (48 ≤ digit) × (digit ≤ 57) }
    ensures { result ≡ min (number * 10 + (digit - 48)) (2 ^ 64 - 1) }
{
    let more = u64::from(digit - b'0');
    number.saturating_mul(10).saturating_add(more)
}
