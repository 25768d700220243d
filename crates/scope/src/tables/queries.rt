// Questions about a scope tree. Each is refused where it is handed a number that the tree has not.
ghost use Rattle.std.specs.Prelude.{◌≡◌, ℕ, length, Some, None, MatchResult};
ghost use Rattle.scope.specs.Queries.{ForScope, IsScope, all_entries, all_scopes, block_in, data_of, entries_of, first_named, first_that, label_in, macro_in, outward, parent_from, recorded_at};
ghost use Rattle.table.specs.Tables.{found};

use crate::entry_test::{ByName, EntryTest};
use crate::refusal::QueryRefusal;
use crate::tables::ExprScopes;
use format::ids::{BlockId, LabelId, MacroId, Name, NodeId, ScopeId};
use reach::data::{ScopeData, ScopeEntry, ScopeKind};

// The entry of a scope at a place, from 0, among some.
fn nth_of(entries: &[ScopeEntry], s: ScopeId, i: u16) -> Option<ScopeEntry>
    ensures is_that_one { result ≡ found (entries_of s.0 entries.now) i }
{
    entries
        .iter()
        .copied()
        .filter(|e| e.scope == s)
        .nth(i as usize)
}

// The first of some entries that is of a scope and passes a test.
#[tactic(auto, unfolding(crate::specs::Queries::entries_of, crate::specs::Queries::first_that))]
fn first_of<T: EntryTest>(entries: &[ScopeEntry], s: ScopeId, test: &T) -> Option<ScopeEntry>
    ensures is_the_first_that_passes { result ≡ first_that (T.EntryTest.passes test.now) (entries_of s.0 entries.now) }
{
    entries
        .iter()
        .copied()
        .filter(|e| e.scope == s)
        .find(|e| test.test(*e))
}

impl ExprScopes {
    pub fn scope_count(&self) -> u16
        ensures counts_the_scopes { result ≡ length (all_scopes self.now) }
    {
        self.tables.scopes.count()
    }

    pub fn entry_count(&self) -> u16
        ensures counts_the_entries { result ≡ length (all_entries self.now) }
    {
        self.tables.entries.len() as u16
    }

    // The scope that an expression is recorded in.
    pub fn scope_for(&self, n: NodeId) -> Result<ScopeId, QueryRefusal>
        ensures is_recorded_or_refused { MatchResult result
            (λ s. recorded_at self.now n ≡ Some s)
            (λ f. (f ≡ QueryRefusal.NoExpression) × (recorded_at self.now n ≡ None)) }
    {
        self.tables.recorded.records[n.index()].ok_or(QueryRefusal::NoExpression)
    }

    // A scope's record.
    pub fn scope(&self, s: ScopeId) -> Result<ScopeData, QueryRefusal>
        ensures is_its_record_or_refused { ForScope self.now s result (λ d. d ≡ data_of self.now s) }
    {
        self.tables.scopes.get(s).ok_or(QueryRefusal::NoScope)
    }

    pub fn parent(&self, s: ScopeId) -> Result<Option<ScopeId>, QueryRefusal>
        ensures is_its_parent_or_refused { ForScope self.now s result (λ p. p ≡ (data_of self.now s).parent) }
    {
        Ok(self.scope(s)?.parent)
    }

    // The block that made a scope, if one did that may hold items.
    pub fn block(&self, s: ScopeId) -> Result<Option<BlockId>, QueryRefusal>
        ensures is_its_block_or_refused { ForScope self.now s result (λ b. b ≡ block_in (data_of self.now s).kind) }
    {
        match self.scope(s)?.kind {
            ScopeKind::Block { id, .. } => Ok(Some(id)),
            _ => Ok(None),
        }
    }

    // The label of the block or loop that made a scope.
    pub fn label(&self, s: ScopeId) -> Result<Option<LabelId>, QueryRefusal>
        ensures is_its_label_or_refused { ForScope self.now s result (λ l. l ≡ label_in (data_of self.now s).kind) }
    {
        match self.scope(s)?.kind {
            ScopeKind::Block { label, .. } => Ok(label),
            ScopeKind::Label(label) => Ok(Some(label)),
            _ => Ok(None),
        }
    }

    // The macro definition that made a scope.
    pub fn macro_def(&self, s: ScopeId) -> Result<Option<MacroId>, QueryRefusal>
        ensures is_its_macro_or_refused { ForScope self.now s result (λ m. m ≡ macro_in (data_of self.now s).kind) }
    {
        match self.scope(s)?.kind {
            ScopeKind::MacroDef(id) => Ok(Some(id)),
            _ => Ok(None),
        }
    }

    fn parent_from(&self, at: Option<ScopeId>) -> Option<ScopeId>
        ensures one_step_outward { result ≡ parent_from self.now at }
    {
        self.tables.scopes.get(at?)?.parent
    }

    // The scope so many steps outward from a scope, itself at 0, or none past the end of its chain.
    #[tactic(auto, using(crate::proofs::Own::outward_more), unfolding(crate::specs::Queries::outward))]
    pub fn scope_chain(&self, s: ScopeId, steps: u16) -> Result<Option<ScopeId>, QueryRefusal>
        ensures is_that_far_outward_or_refused { ForScope self.now s result (λ o. o ≡ outward self.now (Some s) steps) }
    {
        self.scope(s)?;
        // Not `successors`: its closure's contract would be that of `parent_from` once more.
        let mut at = Some(s);
        for _ in 0..steps {
            at = self.parent_from(at);
        }
        Ok(at)
    }

    // The entries in a scope's range, among which are all of its own.
    fn range(&self, s: ScopeId) -> Result<&[ScopeEntry], QueryRefusal>
        ensures holds_all_its_own_or_refused { ForScope self.now s result (λ es. entries_of s.0 es.now ≡ entries_of s.0 (all_entries self.now)) }
    {
        let data = self.scope(s)?;
        Ok(&self.tables.entries.as_slice()[data.start as usize..data.end as usize])
    }

    // The entry of a scope at a place, from 0, among those of that scope alone, in order of adding.
    pub fn entry(&self, s: ScopeId, i: u16) -> Result<Option<ScopeEntry>, QueryRefusal>
        ensures is_that_entry_or_refused { ForScope self.now s result (λ e. e ≡ found (entries_of s.0 (all_entries self.now)) i) }
    {
        Ok(nth_of(self.range(s)?, s, i))
    }

    // The first entry of a scope that passes a test.
    pub fn first_entry<T: EntryTest>(
        &self,
        s: ScopeId,
        test: &T,
    ) -> Result<Option<ScopeEntry>, QueryRefusal>
        ensures is_the_first_that_passes_or_refused { ForScope self.now s result (λ e. e ≡ first_that (T.EntryTest.passes test.now) (entries_of s.0 (all_entries self.now))) }
    {
        Ok(first_of(self.range(s)?, s, test))
    }

    // The first entry of a scope that has a name. Names alone are compared, hygiene is not looked at.
    #[tactic(auto, unfolding(crate::specs::Queries::first_named, crate::specs::Queries::first_that))]
    pub fn resolve_name_in_scope(
        &self,
        s: ScopeId,
        name: Name,
    ) -> Result<Option<ScopeEntry>, QueryRefusal>
        ensures is_the_first_of_that_name_or_refused { ForScope self.now s result (λ e. e ≡ first_named name.0 (entries_of s.0 (all_entries self.now))) }
    {
        self.first_entry(s, &ByName(name))
    }
}
