// Looks records up by their keys.
ghost use Rattle.item_rows.specs.Keys.{Rising};
ghost use Rattle.items.specs.Under.{under};
ghost use Rattle.std.specs.Prelude.{◌≡◌, map};

use item_rows::key::{Key, Keyed};

// The record under a key.
pub(crate) fn seek<R: Keyed + Copy>(rows: &[R], key: Key) -> Option<R>
    requires rising { Rising (map R.Keyed.filed rows.now) }
    ensures is_the_one_under_that_key { result ≡ under R.Keyed.filed key rows.now }
{
    let at = rows.binary_search_by_key(&key, |row| row.key()).ok()?;
    Some(rows[at])
}
