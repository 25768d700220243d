// The hygiene of a look-up on its way outward.
ghost use Rattle.resolve.specs.Outward.{begun, crossed};
ghost use Rattle.std.specs.Prelude.{◌≡◌};

use format::ids::HygieneId;
use host::hosts::ExpansionHost;
use host::item::Outer;
use reach::data::ScopeKind;

// The hygiene in force, and the macro that its expansion came from.
#[derive(Clone, Copy, PartialEq, Eq)]
pub(crate) struct Context {
    pub(crate) hygiene: HygieneId,
    pub(crate) outer: Option<Outer>,
}

impl Context {
    // That of a name as it is written.
    pub(crate) fn begin<E: ExpansionHost>(expansions: &E, hygiene: HygieneId) -> Context
        ensures with_its_own_macro { result ≡ begun (E.ExpansionHost.expansions expansions.now) hygiene }
    {
        Context {
            hygiene,
            outer: expansions.outer(hygiene),
        }
    }

    // That beyond a scope. Past the definition of the macro that wrote the name, names are those of
    // the place where the macro is called.
    pub(crate) fn cross<E: ExpansionHost>(self, expansions: &E, kind: ScopeKind) -> Context
        ensures steps_at_its_macros_definition { result ≡ crossed (E.ExpansionHost.expansions expansions.now) kind self }
    {
        match (kind, self.outer) {
            (ScopeKind::MacroDef(id), Some(outer)) if outer.by == id => Context {
                hygiene: expansions.opaque(outer.parent),
                outer: expansions.outer(outer.parent),
            },
            _ => self,
        }
    }
}
