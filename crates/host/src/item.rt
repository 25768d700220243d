// What a host tells of.
ghost use Rattle.host.specs.Kinds.{KindOfNumber, kind_number};
ghost use Rattle.std.specs.Prelude.{◌≡◌};

use format::ids::{HygieneId, MacroId, Name};

// Where items stand: the module, which is 0, or a block, by its number. It is no enum: it is the number
// that item sheets write and by which a key is made, and as an enum it would be turned back there.
#[derive(Clone, Copy, PartialEq, Eq)]
pub struct PlaceId(pub u32);

pub const MODULE: PlaceId = PlaceId(0);

#[derive(Clone, Copy, PartialEq, Eq)]
pub struct ItemId(pub u32);

#[derive(Clone, Copy, PartialEq, Eq)]
pub struct ConstParamId(pub u32);

#[derive(Clone, Copy, PartialEq, Eq)]
pub enum ItemKind {
    Function = 1,
    Struct = 2,
    Variant = 3,
    Constant = 4,
    Static = 5,
}

impl ItemKind {
    // The kind's number in an item sheet. Not `From`: the call says which number.
    pub fn number(self) -> u8
        ensures is_the_kinds_number { result ≡ kind_number self }
    {
        self as u8
    }
}

// A number that no kind has.
#[derive(Clone, Copy, PartialEq, Eq)]
pub struct UnknownKind(pub u8);

impl TryFrom<u8> for ItemKind {
    type Error = UnknownKind;

    ghost try_from_gives = { KindOfNumber };

    fn try_from(number: u8) -> Result<ItemKind, UnknownKind> {
        match number {
            1 => Ok(ItemKind::Function),
            2 => Ok(ItemKind::Struct),
            3 => Ok(ItemKind::Variant),
            4 => Ok(ItemKind::Constant),
            5 => Ok(ItemKind::Static),
            _ => Err(UnknownKind(number)),
        }
    }
}

// An item that a value's name may mean.
#[derive(Clone, Copy, PartialEq, Eq)]
pub struct Item {
    pub kind: ItemKind,
    pub id: ItemId,
}

// What an expansion came from: the macro, and the context of its call.
#[derive(Clone, Copy, PartialEq, Eq)]
pub struct Outer {
    pub by: MacroId,
    pub parent: HygieneId,
}

// An item under a name.
#[derive(Clone, Copy, PartialEq, Eq)]
pub struct Named {
    pub name: Name,
    pub item: Item,
}
