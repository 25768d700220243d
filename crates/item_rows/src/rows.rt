// The records of an item sheet.
ghost use Rattle.item_rows.specs.Rows.{const_key, expansion_key, item_key};

use crate::key::{Key, Keyed};
use format::ids::{HygieneId, MacroId, Name, OwnerId};
use host::item::{ConstParamId, Item, PlaceId};

// An item that stands at a place under a name.
#[derive(Clone, Copy)]
pub struct ItemRow {
    pub place: PlaceId,
    pub name: Name,
    pub item: Item,
}

// A constant parameter that an owner has under a name.
#[derive(Clone, Copy)]
pub struct ConstRow {
    pub owner: OwnerId,
    pub name: Name,
    pub param: ConstParamId,
}

// A macro expansion, by its context: the macro that it came from, if any, the context of the call,
// and the opaque form of its own.
#[derive(Clone, Copy)]
pub struct ExpansionRow {
    pub context: HygieneId,
    pub by: Option<MacroId>,
    pub parent: HygieneId,
    pub opaque: HygieneId,
}

impl Keyed for ItemRow {
    ghost filed = { item_key };

    fn key(&self) -> Key {
        Key::by_place(self.place, self.name)
    }
}

impl Keyed for ConstRow {
    ghost filed = { const_key };

    fn key(&self) -> Key {
        Key::by_owner(self.owner, self.name)
    }
}

impl Keyed for ExpansionRow {
    ghost filed = { expansion_key };

    fn key(&self) -> Key {
        Key::by_context(self.context)
    }
}
