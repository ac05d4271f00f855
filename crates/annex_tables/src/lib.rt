// The annex: the running sums of the steps from 10.0 mm, at each whole millimetre to 1,600 mm. The two sides are two tables, as 01 asks.
#![tactic(auto)]

mod lower;
mod upper;

ghost use Rattle.std.specs.Prelude.{◌≡◌, ◌<◌, get_or};
ghost use Rattle.annex_tables.specs.Annex.{entries, annex_entry};

use fractions::Bounds;

// How many entries there are.
pub const ENTRIES: usize = 1591;

// Entry k, which stands at 10 + k mm.
pub fn entry(k: usize) -> Bounds
    requires { k < entries }
    ensures { result ≡ annex_entry k }
{
    let lower = sum_at(&lower::SUMS, k);
    let upper = sum_at(&upper::SUMS, k);
    Bounds { lower, upper }
}

// The sum at place k of a column.
fn sum_at(column: &[u64; ENTRIES], k: usize) -> u64
    requires { k < entries }
    ensures { result ≡ get_or column.now k 0 }
{
    column[k]
}
