// A line that arrives in pieces. One with as many bytes as are kept is unreadable, whatever comes after them.
ghost use Rattle.std.specs.Prelude.{List, [], ◌∷◌, ◌++◌, ℕ, ◌+◌, ◌≤◌, length};
ghost use Rattle.cards.specs.Cards.{room, CardOf};
ghost use Rattle.cards.specs.Output.{Holding, WroteFor};

use crate::composing::write_card;
use crate::writing::Text;

// One more than a readable line has.
const KEPT: usize = 18;

// The bytes of a line that has not ended yet. One made by hand may hold anything, as is promised, so no invariant ties its size to 18.
#[derive(Drop)]
pub struct Line {
    pub bytes: [u8; KEPT],
    pub size: usize,
}

impl Line {
    pub fn new() -> Line
        ensures { Holding [] result }
    {
        Line {
            bytes: [0; KEPT],
            size: 0,
        }
    }

    // The line with one byte more.
    pub fn push(mut self, byte: u8) -> Line
        ensures { (seen : List ℕ) → Holding seen self → Holding (seen ++ (byte ∷ [])) result }
    {
        if self.size < KEPT {
            self.bytes[self.size] = byte;
            self.size += 1;
        }
        self
    }

    // Writes the card of the line, and answers where it ends.
    pub fn card(self, out: &mut [u8], at: usize) -> usize
        requires { at + room ≤ length out.old }
        ensures { WroteFor CardOf self out.old at out.new result }
    {
        write_line(self, &mut Text::new(), out, at)
    }
}

// Writes the card of a line by a text that is lent for it, and answers where it ends. No method: a text is known to this crate alone.
pub fn write_line(line: Line, text: &mut Text, out: &mut [u8], at: usize) -> usize
    requires { at + room ≤ length out.old }
    ensures { WroteFor CardOf line out.old at out.new result }
{
    write_card(&line.bytes[..line.size.min(KEPT)], text, out, at)
}
