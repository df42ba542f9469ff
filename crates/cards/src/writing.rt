// The text of a card, which grows piece by piece and is then written into a lent buffer. One text serves card after card.
ghost use Rattle.std.specs.Prelude.{◌≡◌, List, [], ◌∷◌, ◌++◌, ℕ, ◌+◌, ◌≤◌, ◌<◌, length, take};
ghost use Rattle.cards.specs.Texts.{space, decimal, Appended};
ghost use Rattle.cards.specs.Cards.{room};
ghost use Rattle.cards.specs.Widths.{field_room};

use std::marker::Model;

// Enough for any card.
pub const ROOM: usize = 256;

// The least number of two digits.
const TWO_DIGITS: u32 = 10;

// An array and a size, and no `Vec`: a card is always written, and memory for a `Vec` may run out.
#[derive(Drop)]
pub struct Text {
    bytes: [u8; ROOM],
    size: usize,
}

impl Model for Text {
    ghost Value = { List ℕ };

    ghost view = { λ text. take text.size text.bytes };

    ghost invariant = { λ text. text.size ≤ room };
}

impl Text {
    pub fn new() -> Text
        ensures { result ≡ [] }
    {
        Text {
            bytes: [0; ROOM],
            size: 0,
        }
    }

    // Begins anew. What stands past the size counts for nothing, so that no byte is cleared.
    pub fn clear(&mut self)
        ensures { self.new ≡ [] }
    {
        self.size = 0;
    }

    pub fn push(&mut self, byte: u8)
        requires { length self.old < room }
        ensures { self.new ≡ self.old ++ (byte ∷ []) }
    {
        self.bytes[self.size] = byte;
        self.size += 1;
    }

    pub fn push_word(&mut self, word: &[u8])
        requires { length self.old + length word.now ≤ room }
        ensures { self.new ≡ self.old ++ word.now }
    {
        for &byte in word {
            self.push(byte);
        }
    }

    // A number without leading zeros. No `write!`: it may fail, and nothing says that it does not where there is room; `card` cannot fail.
    pub fn push_number(&mut self, n: u32)
        requires { length self.old + length (decimal n) ≤ room }
        ensures { self.new ≡ self.old ++ decimal n }
    {
        if n >= TWO_DIGITS {
            self.push_number(n / 10);
        }
        self.push(b'0' + (n % 10) as u8);
    }

    // A space and a number.
    pub fn push_field(&mut self, n: u32)
        requires { length self.old + field_room ≤ room }
        ensures text { self.new ≡ self.old ++ (space ∷ decimal n) }
        ensures short { length self.new ≤ length self.old + field_room }
    {
        self.push(b' ');
        self.push_number(n);
    }

    // Writes the text at a place of a buffer, and answers where it ends there.
    pub fn write(&self, out: &mut [u8], at: usize) -> usize
        requires { at + room ≤ length out.old }
        ensures { Appended out.old at self.now out.new result }
    {
        let end = at + self.size;
        out[at..end].copy_from_slice(&self.bytes[..self.size]);
        end
    }
}
