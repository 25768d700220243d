// Looking up named items.
ghost use Rattle.std.specs.Prelude.{◌≡◌};
ghost use Rattle.host.specs.Names.{named};

use crate::item::{Item, Named};
use format::ids::Name;

// The item of the first row with that name.
pub(crate) fn first_named(rows: &[Named], name: Name) -> Option<Item>
    ensures the_first { result ≡ named rows.now name }
{
    rows.iter().find(|row| row.name == name).map(|row| row.item)
}
