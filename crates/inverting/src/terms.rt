// The series that undoes f, before it is brought inside the limits.
ghost use Rattle.std.specs.Prelude.{◌≡◌, ◌≤◌, length};
ghost use Rattle.polynomials.specs.Reductions.{Ends};
ghost use Rattle.inverting.specs.Series.{Series, Blank};

const CATALAN: [u32; 13] = [
    1, 1, 2, 5, 14, 42, 132, 429, 1430, 4862, 16796, 58786, 208012,
];

// The series, written into s, which holds zeros; and its highest place. Once a power is 0 modulo k, so are all that follow. A product
// of 13 and of 18 bits has 31, and is not brought below k here.
pub fn series(k: u32, f2: u32, r: u32, s: &mut [u32; 14]) -> usize
    requires { Blank k f2 r s.old }
    ensures { Series k f2 r s.new × (result ≤ 13) × Ends result s.new × (length s.new ≡ 14) }
{
    let minus_one = k - 1;
    let square = numbers::times(k, r, r);
    let product = numbers::times(k, f2, square);
    let step = numbers::times(k, minus_one, product);
    let mut power = r;
    for (j, catalan) in CATALAN.iter().enumerate() {
        if power == 0 {
            return j;
        }
        s[j + 1] = power * catalan;
        power = numbers::times(k, power, step);
    }
    13
}
