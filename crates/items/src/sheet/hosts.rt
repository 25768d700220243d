// An item sheet as both hosts of a body.
ghost use Rattle.items.specs.Held.{consts_of, expansions_of, items_of, sheet_expansions, sheet_items, outer_in, opaque_in};
ghost use Rattle.items.specs.Under.{under};
ghost use Rattle.item_rows.specs.Rows.{by_context, expansion_key};
ghost use Rattle.std.specs.Prelude.{◌≡◌, []};
ghost use Rattle.std.proofs.Common.{ap};
ghost use Rattle.items.specs.Root.{root_none};

use crate::seek::seek;
use crate::sheet::ItemSheet;
use format::ids::{HygieneId, Name, OwnerId};
use host::hosts::{ExpansionHost, ItemHost};
use host::item::{ConstParamId, Item, Outer, PlaceId};
use item_rows::key::Key;
use item_rows::rows::ExpansionRow;
use item_rows::tables::Tables;

impl ItemHost for ItemSheet {
    ghost tables = { λ s. sheet_items (items_of s) (consts_of s) };

    fn item(&self, place: PlaceId, name: Name) -> Option<Item> {
        let key = Key::by_place(place, name);
        seek(self.tables.items.as_slice(), key).map(|row| row.item)
    }

    fn const_param(&self, owner: OwnerId, name: Name) -> Option<ConstParamId> {
        let key = Key::by_owner(owner, name);
        seek(self.tables.consts.as_slice(), key).map(|row| row.param)
    }
}

impl ExpansionHost for ItemSheet {
    ghost expansions = { λ s. sheet_expansions (expansions_of s) };

    ghost root_has_no_outer_macro = { λ s. ap outer_in (root_none (expansions_of s) s.rooted) };

    ghost root_is_its_own_opaque_form = { λ s. ap (opaque_in (record { 0 = 0 })) (root_none (expansions_of s) s.rooted) };

    fn outer(&self, context: HygieneId) -> Option<Outer> {
        let row = self.expansion(context)?;
        let by = row.by?;
        Some(Outer {
            by,
            parent: row.parent,
        })
    }

    fn opaque(&self, context: HygieneId) -> HygieneId {
        self.expansion(context).map_or(context, |row| row.opaque)
    }
}

impl ItemSheet {
    // A sheet without records.
    pub fn empty() -> ItemSheet
        ensures has_no_items { items_of result ≡ [] }
        ensures has_no_constants { consts_of result ≡ [] }
        ensures has_no_expansions { expansions_of result ≡ [] }
    {
        ItemSheet {
            tables: Tables::empty(),
        }
    }

    fn expansion(&self, context: HygieneId) -> Option<ExpansionRow>
        ensures is_the_contexts { result ≡ under expansion_key (by_context context) (expansions_of self.now) }
    {
        seek(self.tables.expansions.as_slice(), Key::by_context(context))
    }
}
