// Cards for an input that arrives in pieces of any size, into a buffer that is emptied now and then.
ghost use Rattle.std.specs.Prelude.{[], ◌∷◌, ◌+◌, ◌≤◌, length};
ghost use Rattle.cards.specs.Cards.{room};
ghost use Rattle.cards.specs.Output.{Output, WroteFor, Prints, FedBy};

use crate::composing::unreadable;
use crate::lines::{Line, write_line};
use crate::writing::{ROOM, Text};

// Takes a byte of a line: gives the line that has not ended, and where the cards end in the buffer. The text serves the card.
fn take_byte(line: Line, byte: u8, text: &mut Text, out: &mut [u8], at: usize) -> (Line, usize)
    requires { at + room ≤ length out.old }
    ensures { WroteFor (Prints (byte ∷ []) result.0) line out.old at out.new result.1 }
{
    if byte == b'\n' {
        let end = write_line(line, text, out, at);
        return (Line::new(), end);
    }
    (line.push(byte), at)
}

// How many bytes of a piece were taken, the line that has not ended, and where the cards end.
#[derive(Drop)]
pub struct Fed {
    pub taken: usize,
    pub line: Line,
    pub end: usize,
}

// Takes bytes of a piece until it ends, or until the buffer may have no room for another card. The buffer and the place in it are no
// struct that keeps them: the caller reads and empties the buffer between the calls.
pub fn feed(piece: &[u8], unended: Line, out: &mut [u8], at: usize) -> Fed
    requires { at ≤ length out.old }
    ensures { FedBy piece.now unended out.old at result out.new }
{
    let mut line = unended;
    let mut end = at;
    let mut text = Text::new();
    for (taken, &byte) in piece.iter().enumerate() {
        if out.len() - end < ROOM {
            return Fed { taken, line, end };
        }
        (line, end) = take_byte(line, byte, &mut text, out, end);
    }
    Fed {
        taken: piece.len(),
        line,
        end,
    }
}

// At the end of the input: a last line without its newline is not a line of the form asked for, whatever it holds.
pub fn finish(line: Line, out: &mut [u8], at: usize) -> usize
    requires { at + room ≤ length out.old }
    ensures { WroteFor (λ seen. Output seen []) line out.old at out.new result }
{
    if line.size == 0 {
        return at;
    }
    unreadable(out, at)
}
