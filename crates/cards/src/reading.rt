// A triple from a line, which may hold any bytes, and any number of them.
ghost use Rattle.std.specs.Prelude.{◌≡◌, ◌∷◌, [], ◌≤◌, length, MatchOption};
ghost use Rattle.cards.specs.Texts.{space, Digits, spelt, most_digits};
ghost use Rattle.cards.specs.Fronts.{Run, Front, NoFront, Anything, Spaced, NoMore};
ghost use Rattle.cards.specs.Cards.{ReadAs};

use triples::Triple;

const MOST_DIGITS: usize = 5;

// Where the digits at the front of a text end.
fn run(text: &[u8]) -> usize
    ensures { Run text.now result }
{
    text.iter().take_while(|byte| byte.is_ascii_digit()).count()
}

// No `parse`: it takes a `str` and may fail, and here are at most five bytes that are digits.
fn value(digits: &[u8]) -> u32
    requires { Digits digits.now × (length digits.now ≤ most_digits) }
    ensures { result ≡ spelt 0 digits.now }
{
    let mut n = 0;
    for &digit in digits {
        n = 10 * n + u32::from(digit - b'0');
    }
    n
}

// The number at the front of a text, and what comes after it.
fn number(text: &[u8]) -> Option<(u32, &[u8])>
    ensures { MatchOption result (NoFront Anything text.now) (λ found. Front text.now found.0 found.1.now) }
{
    let (digits, rest) = text.split_at(run(text));
    if digits.is_empty() || digits.len() > MOST_DIGITS {
        return None;
    }
    Some((value(digits), rest))
}

// A number with a space after it, and what comes after the space.
fn spaced(text: &[u8]) -> Option<(u32, &[u8])>
    ensures { MatchOption result (NoFront Spaced text.now) (λ found. Front text.now found.0 (space ∷ found.1.now)) }
{
    let (n, rest) = number(text)?;
    let after = rest.strip_prefix(b" ")?;
    Some((n, after))
}

// A number that is the whole text.
fn whole(text: &[u8]) -> Option<u32>
    ensures { MatchOption result (NoFront NoMore text.now) (λ n. Front text.now n []) }
{
    let (n, rest) = number(text)?;
    rest.is_empty().then_some(n)
}

// Reads a line that comes without its newline.
pub fn read(line: &[u8]) -> Option<Triple>
    ensures { ReadAs line.now result }
{
    let (k, after_k) = spaced(line)?;
    let (f1, after_f1) = spaced(after_k)?;
    let f2 = whole(after_f1)?;
    Some(Triple { k, f1, f2 })
}
