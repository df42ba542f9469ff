// A byte of a text.
ghost use Rattle.std.specs.Prelude.{◌≡◌, ◌≢◌, ℕ, ◌≤◌, ◌<◌, length, slice_index, EachIndex, MatchOption};

fn first(text: &[u8], byte: u8) -> Option<usize>
    ensures { MatchOption result
        (EachIndex text.now (λ k. slice_index text.now k ≢ byte))
        (λ at. (at < length text.now) × (slice_index text.now at ≡ byte) × ((k : ℕ) → k < at → slice_index text.now k ≢ byte)) }
{
    text.iter().position(|b| *b == byte)
}

// Where the byte stands first from `from` on and before `to`, or else `to`, as `within` and `passed` promise. No `Option`: a word or an entry that
// no such byte follows ends at `to`, and whoever asks cuts there.
pub fn find(text: &[u8], from: usize, to: usize, byte: u8) -> usize
    requires { (from ≤ to) × (to ≤ length text.now) }
    ensures within { (from ≤ result) × (result ≤ to) }
    ensures passed { (j : ℕ) → from ≤ j → j < result → slice_index text.now j ≢ byte }
    ensures found { result < to → slice_index text.now result ≡ byte }
{
    match first(&text[from..to], byte) {
        Some(at) => from + at,
        None => to,
    }
}
