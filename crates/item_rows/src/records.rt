// The records of each section: refusal 8. Places are counted from the section's first byte, as the
// definitions of the format count them: a slice for each record would have to be counted back.
ghost use Rattle.item_rows.specs.Records.{GoodConst, GoodExpansion, GoodItem, const_at, expansion_at, item_at};
ghost use Rattle.framing.specs.declared.fault.Part.TheVariants.{Constants, Expansions, Items};
ghost use Rattle.framing.specs.declared.fault.Refusal.TheVariants.{ItemRecord};
ghost use Rattle.std.proofs.Common.{lit<};
ghost use Rattle.std.specs.Prelude.{◌≡◌};

use crate::rows::{ConstRow, ExpansionRow, ItemRow};
use format::ids::{HygieneId, MacroId, Name, OwnerId};
use framing::bytes::u32_at;
use framing::fault::{Part, Refusal};
use host::item::{ConstParamId, Item, ItemId, ItemKind, PlaceId};
use reader::record::Record;

impl Record for ItemRow {
    const PART: Part = Part::Items;

    ghost PART = { Items };

    const REFUSAL: Refusal = Refusal::ItemRecord;

    ghost REFUSAL = { ItemRecord };

    const WIDTH: usize = 13;

    ghost WIDTH = { 13 };

    ghost has_bytes = { lit< tt };

    const BLANK: ItemRow = ItemRow {
        place: PlaceId(0),
        name: Name(0),
        item: Item {
            kind: ItemKind::Function,
            id: ItemId(0),
        },
    };

    ghost written = { item_at };

    ghost good = { GoodItem };

    fn read(bytes: &[u8], i: usize) -> Option<ItemRow> {
        let name = u32_at(bytes, 13 * i + 4);
        let kind = ItemKind::try_from(bytes[13 * i + 8]).ok()?;
        let number = u32_at(bytes, 13 * i + 9);
        if name < 3 || number < 1 {
            return None;
        }
        Some(ItemRow {
            place: PlaceId(u32_at(bytes, 13 * i)),
            name: Name(name),
            item: Item {
                kind,
                id: ItemId(number),
            },
        })
    }
}

impl Record for ConstRow {
    const PART: Part = Part::Constants;

    ghost PART = { Constants };

    const REFUSAL: Refusal = Refusal::ItemRecord;

    ghost REFUSAL = { ItemRecord };

    const WIDTH: usize = 12;

    ghost WIDTH = { 12 };

    ghost has_bytes = { lit< tt };

    const BLANK: ConstRow = ConstRow {
        owner: OwnerId(0),
        name: Name(0),
        param: ConstParamId(0),
    };

    ghost written = { const_at };

    ghost good = { GoodConst };

    fn read(bytes: &[u8], i: usize) -> Option<ConstRow> {
        let owner = u32_at(bytes, 12 * i);
        let name = u32_at(bytes, 12 * i + 4);
        let number = u32_at(bytes, 12 * i + 8);
        if owner < 1 || name < 1 || number < 1 {
            return None;
        }
        Some(ConstRow {
            owner: OwnerId(owner),
            name: Name(name),
            param: ConstParamId(number),
        })
    }
}

impl Record for ExpansionRow {
    const PART: Part = Part::Expansions;

    ghost PART = { Expansions };

    const REFUSAL: Refusal = Refusal::ItemRecord;

    ghost REFUSAL = { ItemRecord };

    const WIDTH: usize = 16;

    ghost WIDTH = { 16 };

    ghost has_bytes = { lit< tt };

    const BLANK: ExpansionRow = ExpansionRow {
        context: HygieneId(0),
        by: None,
        parent: HygieneId(0),
        opaque: HygieneId(0),
    };

    ghost written = { expansion_at };

    ghost good = { GoodExpansion };

    fn read(bytes: &[u8], i: usize) -> Option<ExpansionRow> {
        let context = u32_at(bytes, 16 * i);
        if context < 1 {
            return None;
        }
        let by = u32_at(bytes, 16 * i + 4);
        Some(ExpansionRow {
            context: HygieneId(context),
            by: (by != 0).then_some(MacroId(by)),
            parent: HygieneId(u32_at(bytes, 16 * i + 8)),
            opaque: HygieneId(u32_at(bytes, 16 * i + 12)),
        })
    }
}
