// Named items that count where a host has none.
ghost use Rattle.host.specs.Added.{add_answer, after_adding, names_of, refusal_number};
ghost use Rattle.host.specs.Names.{with_added};
ghost use Rattle.std.specs.Prelude.{◌≡◌, [], length};

use crate::hosts::ItemHost;
use crate::item::{ConstParamId, Item, ItemId, ItemKind, MODULE, Named, PlaceId};
use crate::names::first_named;
use format::ids::{Name, OwnerId};
use table::Table;

const BLANK: Named = Named {
    name: Name(0),
    item: Item {
        kind: ItemKind::Function,
        id: ItemId(0),
    },
};

// An item host over another, with up to 64 named items of its own, which count in the module where
// the one below has none.
#[derive(Drop)]
pub struct Prelude<H> {
    below: H,
    names: Table<Named, 64>,
}

// Why a name is not added.
#[derive(Clone, Copy, PartialEq, Eq)]
pub enum PreludeRefusal {
    // The prelude is full.
    Full = 25,
    // The prelude has that name already.
    NameTaken = 26,
}

impl PreludeRefusal {
    // Not `From`: the call says which number.
    pub fn number(self) -> u8
        ensures is_the_refusals_number { result ≡ refusal_number self }
    {
        self as u8
    }
}

impl<H: ItemHost> ItemHost for Prelude<H> {
    ghost tables = { λ s. with_added (H.ItemHost.tables s.below) (names_of s.names) };

    fn item(&self, place: PlaceId, name: Name) -> Option<Item> {
        let below = self.below.item(place, name);
        if place == MODULE {
            below.or_else(|| first_named(self.names.as_slice(), name))
        } else {
            below
        }
    }

    fn const_param(&self, owner: OwnerId, name: Name) -> Option<ConstParamId> {
        self.below.const_param(owner, name)
    }
}

impl<H> Prelude<H> {
    // A prelude without names.
    pub fn over(below: H) -> Prelude<H>
        ensures is_over_that_host { result.below ≡ below }
        ensures has_no_names { names_of result.names ≡ [] }
    {
        Prelude {
            below,
            names: Table::new(BLANK),
        }
    }

    // One named item more, or a refusal that changes nothing.
    pub fn add(&mut self, name: Name, item: Item) -> Result<(), PreludeRefusal>
        ensures is_refused_where_full_or_taken { result ≡ add_answer (names_of self.old.names) (length (names_of self.old.names)) name }
        ensures leaves_just_that_name_more { names_of self.new.names ≡ after_adding result (names_of self.old.names) name item }
        ensures keeps_the_host_below { self.new.below ≡ self.old.below }
    {
        if self.names.len() == 64 {
            return Err(PreludeRefusal::Full);
        }
        if first_named(self.names.as_slice(), name).is_some() {
            return Err(PreludeRefusal::NameTaken);
        }
        self.names.push(Named { name, item });
        Ok(())
    }

    // The host below, back again.
    pub fn into_below(self) -> H
        ensures is_that_host { result ≡ self.below }
    {
        let Prelude { below, names: _ } = self;
        below
    }
}
