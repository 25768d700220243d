// The entries of one scope.
ghost use Rattle.resolve.specs.Outward.{answers_to, local_among, supposed_entry};
ghost use Rattle.scope.specs.Queries.{IsScope, all_entries};
ghost use Rattle.std.specs.Prelude.{◌≡◌, map};

use crate::resolution::Resolution;
use crate::sought::Rename;
use format::ids::{HygieneId, Name, ScopeId};
use reach::data::ScopeEntry;
use scope::entry_test::EntryTest;
use scope::tables::ExprScopes;

// An entry passes that has the name and the hygiene, as if a binding had another name.
#[derive(Clone, Copy)]
pub(crate) struct ByNameAndHygiene {
    pub(crate) name: Name,
    pub(crate) hygiene: HygieneId,
    pub(crate) supposed: Option<Rename>,
}

fn name_of(entry: ScopeEntry, supposed: Option<Rename>) -> Name
    ensures as_if_renamed { result ≡ (supposed_entry supposed entry).name }
{
    match supposed {
        Some(rename) if entry.binding == rename.binding => rename.name,
        _ => entry.name,
    }
}

impl EntryTest for ByNameAndHygiene {
    ghost passes = { λ t e. answers_to t.name t.hygiene (supposed_entry t.supposed e) };

    fn test(&self, entry: ScopeEntry) -> bool {
        name_of(entry, self.supposed) == self.name && entry.hygiene == self.hygiene
    }
}

// The local of the first entry of a scope that answers to the name and the hygiene, as if a binding
// had another name. A number that is no scope's has no entries.
pub(crate) fn local_in(tree: &ExprScopes, s: ScopeId, test: ByNameAndHygiene) -> Option<Resolution>
    ensures the_first_that_answers { IsScope tree.now s → result ≡ local_among (map (supposed_entry test.supposed) (all_entries tree.now)) test.name test.hygiene s }
{
    let first = tree.first_entry(s, &test).ok()?;
    first.map(|entry| Resolution::Local(entry.binding))
}
