// The card of a line.
ghost use Rattle.std.specs.Prelude.{◌≡◌, [], ◌∷◌, ◌++◌, ◌+◌, ◌*◌, ◌≤◌, length};
ghost use Rattle.triples.specs.Shuffles.{Shuffle};
ghost use Rattle.cards.specs.Texts.{fields, listing, Appended, Wrote};
ghost use Rattle.cards.specs.Cards.{room, members, unreadable_card, refused_word, ok_word, row, FactsOf, told, TripleCard, CardOf};
ghost use Rattle.cards.specs.Widths.{field_room};

use crate::reading::read;
use crate::writing::Text;
use triples::Triple;

const UNREADABLE: &[u8] = b"unreadable\n";

// What the card of a shuffle tells of it: the inverse, P, Q and the spread. The inverse is a degree and thirteen places, as `FactsOf` says
// it, which is under the promise that no second card fits.
#[derive(Drop)]
pub struct Facts {
    pub degree: u32,
    pub a: [u32; 13],
    pub p: u32,
    pub q: u32,
    pub spread: u32,
}

fn facts_of(t: Triple) -> Facts
    requires { Shuffle t }
    ensures { FactsOf t result }
{
    let inverse = inverting::inverse(t);
    let form = arp_forms::form_of(t);
    let spread = spreading::spread(t);
    let a = inverse.a;
    Facts {
        degree: inverse.degree,
        a,
        p: form.p,
        q: form.q,
        spread: spread as u32,
    }
}

// The numbers of the triple, which every readable line's card begins with. Here and below the text is lent and not handed back, so that it
// is neither cleared nor moved for a card.
#[tactic(auto, using(crate::proofs::Decimals::decimal_length))]
fn begin(text: &mut Text, t: Triple)
    ensures text { text.new ≡ listing (members t) }
    ensures short { length text.new ≤ 3 * field_room }
{
    text.clear();
    text.push_number(t.k);
    text.push_field(t.f1);
    text.push_field(t.f2);
}

fn refused(text: &mut Text, t: Triple, n: u32)
    ensures { text.new ≡ row t refused_word (n ∷ []) }
{
    begin(text, t);
    text.push_word(b" refused");
    text.push_field(n);
    text.push(b'\n');
}

fn push_fields(text: &mut Text, numbers: &[u32])
    requires { length text.old + field_room * length numbers.now ≤ room }
    ensures text { text.new ≡ text.old ++ fields numbers.now }
    ensures short { length text.new ≤ length text.old + field_room * length numbers.now }
{
    for &n in numbers {
        text.push_field(n);
    }
}

fn accepted(text: &mut Text, t: Triple, facts: Facts)
    requires { facts.degree ≤ 13 }
    ensures { text.new ≡ row t ok_word (told facts) }
{
    begin(text, t);
    text.push_word(b" ok");
    text.push_field(facts.degree);
    push_fields(text, &facts.a[..facts.degree as usize]);
    push_fields(text, &[facts.p, facts.q, facts.spread]);
    text.push(b'\n');
}

// The card of a line that reads as a triple.
fn of_triple(text: &mut Text, t: Triple)
    ensures { TripleCard t text.new }
{
    match refusals::accept(t) {
        Ok(()) => accepted(text, t, facts_of(t)),
        Err(refusal) => refused(text, t, refusal.into()),
    }
}

// The card of a line that is not readable: one word, which needs no text.
pub fn unreadable(out: &mut [u8], at: usize) -> usize
    requires { at + room ≤ length out.old }
    ensures { Appended out.old at unreadable_card out.new result }
{
    let end = at + UNREADABLE.len();
    out[at..end].copy_from_slice(UNREADABLE);
    end
}

// Writes the card of a line, which comes without its newline, by a text that is lent for it, and answers where the card ends.
pub fn write_card(line: &[u8], text: &mut Text, out: &mut [u8], at: usize) -> usize
    requires { at + room ≤ length out.old }
    ensures { Wrote (CardOf line.now) out.old at out.new result }
{
    match read(line) {
        Some(t) => {
            of_triple(text, t);
            text.write(out, at)
        }
        None => unreadable(out, at),
    }
}

// Writes the card of a line, which comes without its newline, and answers where the card ends.
pub fn card(line: &[u8], out: &mut [u8], at: usize) -> usize
    requires { at + room ≤ length out.old }
    ensures { Wrote (CardOf line.now) out.old at out.new result }
{
    write_card(line, &mut Text::new(), out, at)
}
