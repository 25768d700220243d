// The order of records by their keys: refusal 9.
ghost use Rattle.std.specs.Prelude.{ℕ, ◌<◌, ◌≤◌, map, length, MatchResult};
ghost use Rattle.item_rows.specs.Keys.{Rising};
ghost use Rattle.items.specs.Steps.{FirstUnsorted, Sorted, Unsorted};

use framing::fault::{Fault, Part, Refusal};
use item_rows::key::Keyed;
use item_rows::tables::Tables;

// Refusal 9 at the first record whose key does not come after that of the one before it.
pub(crate) fn check_order<R: Keyed>(rows: &[R], part: Part) -> Result<(), Fault>
    requires few { length rows.now ≤ 512 }
    ensures rising_or_the_first_refused { MatchResult result
        (λ _. Rising (map R.Keyed.filed rows.now))
        (FirstUnsorted (map R.Keyed.filed rows.now) part) }
{
    let unsorted = rows
        .iter()
        .zip(rows.iter().skip(1))
        .position(|(row, next)| !row.key().comes_before(next.key()));
    // No `map_or`: which answer is the refusal is plainer in a match.
    match unsorted {
        None => Ok(()),
        Some(i) => Err(Fault::at_record(Refusal::KeyOrder, part, i + 1)),
    }
}

// Refusal 9 over all three tables, section after section.
pub(crate) fn check_sorted(tables: &Tables) -> Result<(), Fault>
    ensures sorted_or_the_first_refused { MatchResult result (λ _. Sorted tables.now) (Unsorted tables.now) }
{
    check_order(tables.items.as_slice(), Part::Items)?;
    check_order(tables.consts.as_slice(), Part::Constants)?;
    check_order(tables.expansions.as_slice(), Part::Expansions)?;
    Ok(())
}
