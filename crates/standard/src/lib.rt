// The rows of 3GPP TS 36.212, table 5.1.3-3: the standard's block lengths, each with its two coefficients.
#![tactic(auto)]

mod table;

ghost use Rattle.std.specs.Prelude.{◌≡◌, MatchOption};
ghost use Rattle.standard.specs.Rows.{Row, HasRow};

pub use table::all_rows;
use triples::Triple;

// The row of length k.
pub fn row_of(k: u32) -> Option<Triple>
    ensures { MatchOption result (¬ HasRow k) (λ t. Row t × (t.k ≡ k)) }
{
    let rows = all_rows();
    let i = rows.binary_search_by_key(&k, |t| t.k).ok()?;
    Some(rows[i])
}
