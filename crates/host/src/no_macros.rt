// The host of a body that no macro had a part in.
ghost use Rattle.host.specs.Meaning.{without_macros};
ghost use Rattle.std.specs.Prelude.{refl};

use crate::hosts::ExpansionHost;
use crate::item::Outer;
use format::ids::HygieneId;

#[derive(Clone, Copy)]
pub struct NoMacros;

impl ExpansionHost for NoMacros {
    ghost expansions = { λ _. without_macros };

    ghost root_has_no_outer_macro = { λ _. refl };

    ghost root_is_its_own_opaque_form = { λ _. refl };

    fn outer(&self, _context: HygieneId) -> Option<Outer> {
        None
    }

    fn opaque(&self, context: HygieneId) -> HygieneId {
        context
    }
}
