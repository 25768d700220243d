// What records are sorted by.
ghost use Rattle.item_rows.specs.Keys.{before};
ghost use Rattle.item_rows.specs.Rows.{by_context, by_owner, by_place};
ghost use Rattle.item_rows.specs.declared.key.Key.{Key};
ghost use Rattle.std.specs.Prelude.{◌≡◌};

use format::ids::{HygieneId, Name, OwnerId};
use host::item::PlaceId;

// Two numbers, compared by the major, then by the minor: the order of the fields.
#[derive(Clone, Copy, PartialEq, Eq, PartialOrd, Ord)]
pub struct Key {
    pub major: u32,
    pub minor: u32,
}

// A record that is filed under a key.
pub trait Keyed {
    ghost filed: { Self → Key };

    fn key(&self) -> Key
        ensures is_what_it_is_filed_under { result ≡ filed self.now };
}

impl Key {
    // What an item is filed under. Not one function over every id, which would file any number as a place.
    pub fn by_place(place: PlaceId, name: Name) -> Key
        ensures is_of_place_and_name { result ≡ by_place place name }
    {
        Key {
            major: place.0,
            minor: name.0,
        }
    }

    // What a constant parameter is filed under.
    pub fn by_owner(owner: OwnerId, name: Name) -> Key
        ensures is_of_owner_and_name { result ≡ by_owner owner name }
    {
        Key {
            major: owner.0,
            minor: name.0,
        }
    }

    // What an expansion is filed under.
    pub fn by_context(context: HygieneId) -> Key
        ensures is_of_the_context { result ≡ by_context context }
    {
        Key {
            major: context.0,
            minor: 0,
        }
    }

    // The derived order, in the word that the specs have for it.
    pub fn comes_before(self, other: Key) -> bool
        ensures by_major_then_minor { result ≡ before self other }
    {
        self < other
    }
}
