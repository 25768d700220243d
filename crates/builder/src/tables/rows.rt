// What the scopes, and the scopes recorded for expressions, do with their records.
ghost use Rattle.std.specs.Prelude.{◌≡◌, ℕ, ◌+◌, ◌-◌, ◌<◌, ◌≤◌, [], ◌∷◌, ◌++◌, length, replicate, Some, None, MatchOption, slice_index_or, slice_set};
ghost use Rattle.reach.specs.Blank.{blank_scope, ending, parent_of};
ghost use Rattle.builder.specs.Told.{Stands, bare_scopes, scopes_in};

use crate::tables::{Recorded, Scopes};
use format::ids::{NodeId, ScopeId};
use reach::data::{ScopeData, ScopeKind};
use table::Table;

const BLANK_SCOPE: ScopeData = ScopeData {
    parent: None,
    kind: ScopeKind::Plain,
    start: 0,
    end: 0,
};

impl Scopes {
    // The root scope alone.
    pub(crate) fn root() -> Scopes
        ensures it_alone { scopes_in result ≡ blank_scope ∷ [] }
    {
        let mut table = Table::new(BLANK_SCOPE);
        table.push(BLANK_SCOPE);
        Scopes { table }
    }

    // How many scopes there are, which is the number of the last.
    pub fn count(&self) -> u16
        ensures counts_them { result ≡ length (scopes_in self.now) }
        ensures fits { result ≤ 1023 }
    {
        self.table.len() as u16
    }

    // A scope's record, by its number from 1.
    pub fn get(&self, s: ScopeId) -> Option<ScopeData>
        ensures its_own_or_none { MatchOption result
            (Stands self.now s → ⊥)
            (λ d. Stands self.now s × (d ≡ slice_index_or (scopes_in self.now) (s.0 - 1) blank_scope)) }
    {
        self.table.get(s.0.checked_sub(1)? as usize)
    }

    // One scope more; its number.
    pub(crate) fn push(&mut self, scope: ScopeData) -> ScopeId
        requires room { length (scopes_in self.old) < 1023 }
        requires above { parent_of scope.parent ≤ length (scopes_in self.old) }
        requires rooted { 0 < parent_of scope.parent }
        ensures is_next { result ≡ record { 0 = length (scopes_in self.old) + 1 } }
        ensures at_the_end { scopes_in self.new ≡ scopes_in self.old ++ (scope ∷ []) }
    {
        self.table.push(scope);
        ScopeId(self.count())
    }

    // Lets a scope's range of entries end at a place.
    pub(crate) fn widen(&mut self, s: ScopeId, end: u16)
        requires there { Stands self.old s }
        ensures written { scopes_in self.new ≡ slice_set (scopes_in self.old) (s.0 - 1) (ending end (slice_index_or (scopes_in self.old) (s.0 - 1) blank_scope)) }
        ensures same_tree { bare_scopes self.new ≡ bare_scopes self.old }
    {
        let k = s.0 as usize - 1;
        let scope = self.table.as_slice()[k];
        self.table.set(k, ScopeData { end, ..scope });
    }
}

impl Recorded {
    pub(crate) fn new() -> Recorded
        ensures nothing { result.records ≡ replicate 512 None }
    {
        Recorded {
            records: [None; 512],
        }
    }

    pub(crate) fn put(&mut self, n: NodeId, s: ScopeId)
        ensures that_one { self.new.records ≡ slice_set self.old.records (n.raw - 1) (Some s) }
    {
        self.records[n.index()] = Some(s);
    }
}
