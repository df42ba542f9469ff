// One bit to a place, so that a block of k symbols asks for (k + 7) / 8 bytes and no array of the library's own.
ghost use Rattle.std.specs.Prelude.{◌+◌, ◌*◌, ◌/◌, ◌≤◌, ◌<◌, length};
ghost use Rattle.permuting.specs.Scratch.{Cleared};
ghost use Rattle.permuting.specs.Bitmap.{Stands, Marked, FirstFree};

// A mark is set and never taken back one by one: `clear` takes them all. Bytes and place stay two arguments: the place is another one at
// each call, so that a struct of the two would be built for one call, and would say of the place what the clause says.
pub fn mark(s: &mut [u8], i: usize)
    requires { i / 8 < length s.old }
    ensures { Marked i s.old s.new }
{
    s[i / 8] |= 1 << (i % 8);
}

pub fn is_marked(s: &[u8], i: usize) -> bool
    requires { i / 8 < length s.now }
    ensures { Stands result i s.now }
{
    (s[i / 8] >> (i % 8)) & 1 == 1
}

// Lent bytes may hold anything, so the work begins with this; and it ends with it, so that nothing of the work is left in them.
// A `for`: `fill` writes the last byte apart from the others, which takes longer.
pub fn clear(s: &mut [u8], n: usize)
    requires { n ≤ length s.old }
    ensures { Cleared n s.old s.new }
{
    for byte in &mut s[..n] {
        *byte = 0;
    }
}

// The first place of the byte that comes after the one of place i, but never past n.
fn past_byte(i: usize, n: usize) -> usize
    requires { i < n }
    ensures { (i < result) × (result ≤ n) × (result ≤ i / 8 * 8 + 8) }
{
    (i / 8 * 8 + 7).min(n - 1) + 1
}

// Where the work goes on after a cycle: places that a former cycle passed are marked, and n says that none is left.
// Once long cycles are walked most bytes are full, so a byte of 255 is passed as a whole, and only other bytes are read by bit. It is a
// `while`, since what is read says how far to go on. Where no place is left `FirstFree` asks for n, and so for no `Option`.
pub fn first_free(s: &[u8], from: usize, n: usize) -> usize
    requires from_le_n { from ≤ n }
    requires n_bound { n ≤ 8 * length s.now }
    ensures { FirstFree n from result s.now }
{
    let mut i = from;
    while i < n {
        if s[i / 8] == 255 {
            i = past_byte(i, n);
            continue;
        }
        if !is_marked(s, i) {
            return i;
        }
        i += 1;
    }
    n
}
