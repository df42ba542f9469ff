// The coefficients of the rising products y(y + 1)…(y + n - 1), for n from 2 to 13: of each, those at the places 1 to n - 1. At the
// place 0 there is none, and the one at the place n is 1. They stand row after row with nothing between, as `Rows` has them: rows of one length would
// be half zeros. A constant would be laid out anew at each call that names it.
ghost use Rattle.std.specs.Prelude.{◌≡◌, ◌≤◌, ◌<◌, get_or};
ghost use Rattle.polynomials.specs.RisingProducts.{rising};

static ROWS: [u32; 78] = [
    1, 2, 3, 6, 11, 6, 24, 50, 35, 10, 120, 274, 225, 85, 15, 720, 1764, 1624, 735, 175, 21, 5040,
    13068, 13132, 6769, 1960, 322, 28, 40320, 109584, 118124, 67284, 22449, 4536, 546, 36, 362880,
    1026576, 1172700, 723680, 269325, 63273, 9450, 870, 45, 3628800, 10628640, 12753576, 8409500,
    3416930, 902055, 157773, 18150, 1320, 55, 39916800, 120543840, 150917976, 105258076, 45995730,
    13339535, 2637558, 357423, 32670, 1925, 66, 479001600, 1486442880, 1931559552, 1414014888,
    657206836, 206070150, 44990231, 6926634, 749463, 55770, 2717, 78,
];

// The coefficient at the place j of the n-th rising product, out of the table.
pub fn rising(n: usize, j: usize) -> u32
    requires { (1 ≤ j) × (j < n) × (n ≤ 13) }
    ensures { result ≡ get_or (rising n) j 0 }
{
    ROWS[(n - 1) * (n - 2) / 2 + j - 1]
}
