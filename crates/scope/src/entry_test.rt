// Tests by which the entries of a scope are looked through.
ghost use Rattle.scope.specs.Queries.{named};
ghost use Rattle.reach.specs.declared.data.ScopeEntry.{ScopeEntry as AnEntry};
ghost use Rattle.std.specs.Prelude.{◌≡◌, Bool};

use format::ids::Name;
use reach::data::ScopeEntry;

// Which entries pass is shown by a ghost member, so one look through a scope serves every test. A
// closure would serve too, but only with a `requires` that it may be called, which asks more of callers.
pub trait EntryTest {
    ghost passes: { Self → AnEntry → Bool };

    fn test(&self, entry: ScopeEntry) -> bool
        ensures tells_whether_it_passes { result ≡ passes self.now entry };
}

// An entry passes by its name alone.
#[derive(Clone, Copy)]
pub struct ByName(pub Name);

impl EntryTest for ByName {
    ghost passes = { λ t. named t.0 };

    fn test(&self, entry: ScopeEntry) -> bool {
        entry.name == self.0
    }
}
