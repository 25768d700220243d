// The two hosts of a body. To ask alters nothing and is never refused.
ghost use Rattle.host.specs.Meaning.{ExpansionTables, ItemTables};
ghost use Rattle.std.specs.Prelude.{◌≡◌, None};

use crate::item::{ConstParamId, Item, Outer, PlaceId};
use format::ids::{HygieneId, Name, OwnerId};

// Tells items and constant parameters, from tables that it shows.
pub trait ItemHost {
    ghost tables: { Self → ItemTables };

    // The item that stands at a place under a name.
    fn item(&self, place: PlaceId, name: Name) -> Option<Item>
        ensures is_the_tables_item { result ≡ (tables self.now).items place name };

    // The constant parameter that an owner has under a name.
    fn const_param(&self, owner: OwnerId, name: Name) -> Option<ConstParamId>
        ensures is_the_tables_parameter { result ≡ (tables self.now).const_params owner name };
}

// Tells macro expansions by their contexts. The root context, 0, is of none.
pub trait ExpansionHost {
    ghost expansions: { Self → ExpansionTables };

    // The macro that a context's expansion came from, with the context of its call.
    fn outer(&self, context: HygieneId) -> Option<Outer>
        ensures is_the_tables_outer { result ≡ (expansions self.now).outers context };

    // The opaque form of a context.
    fn opaque(&self, context: HygieneId) -> HygieneId
        ensures is_the_tables_opaque { result ≡ (expansions self.now).opaques context };

    ghost root_has_no_outer_macro: { (s : Self) → (expansions s).outers record { 0 = 0 } ≡ None };

    ghost root_is_its_own_opaque_form: { (s : Self) → (expansions s).opaques record { 0 = 0 } ≡ record { 0 = 0 } };
}
