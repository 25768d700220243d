// The look-up outward, from the innermost scope to the module.
ghost use Rattle.resolve.specs.Outward.{begun, resolved, scope_answer, supposed_entry, supposing, surroundings_of};
ghost use Rattle.scope.specs.Queries.{IsScope, all_entries, data_of};
ghost use Rattle.std.specs.Prelude.{◌≡◌, map, IfOk, Some, MatchOption};
ghost use Rattle.reach.specs.Blank.{parent_of};
ghost use Rattle.resolve.specs.Examples.{ExamplesHold};
ghost use Rattle.resolve.specs.Hits.{Finds, MeansOne, ParentsBelow};
ghost use Rattle.resolve.specs.Hygiene.{DefinitionSite, MixedSite};
ghost use Rattle.resolve.specs.Uses.{ForPlace};

use crate::context::Context;
use crate::entries::{ByNameAndHygiene, local_in};
use crate::outside::{ask_block, ask_outside};
use crate::resolution::Resolution;
use crate::resolver::Resolver;
use crate::sought::{Rename, Sought};
use format::ids::ScopeId;
use host::hosts::{ExpansionHost, ItemHost};
use reach::data::ScopeData;
use scope::refusal::QueryRefusal;
use scope::tables::ExprScopes;

// A scope on the way, with its record.
#[derive(Clone, Copy)]
pub(crate) struct Stop {
    pub(crate) id: ScopeId,
    pub(crate) data: ScopeData,
}

// The scope that the way goes on in, or none where it has come to its end.
fn stop_at(tree: &ExprScopes, at: Option<ScopeId>) -> Option<Stop>
    ensures a_scope_or_the_end { MatchOption result
        (IsScope tree.now (record { 0 = parent_of at }) → ⊥)
        (λ p. (at ≡ Some p.id) × IsScope tree.now p.id × (p.«data» ≡ data_of tree.now p.id)) }
{
    let id = at?;
    let data = tree.scope(id).ok()?;
    Some(Stop { id, data })
}

// Refusal 23 where a look-up is to begin in a scope that the tree has not.
fn check_place(tree: &ExprScopes, from: Option<ScopeId>) -> Result<(), QueryRefusal>
    ensures a_place_or_refused { ForPlace tree.now from result (λ _. Unit {0}) }
{
    if let Some(s) = from {
        tree.scope(s)?;
    }
    Ok(())
}

impl<'a, I: ItemHost, E: ExpansionHost> Resolver<'a, I, E> {
    // What a scope answers: an entry of its own, then its place.
    fn ask_scope(&self, stop: Stop, test: ByNameAndHygiene) -> Option<Resolution>
        ensures entry_then_place { IsScope self.now.tree.now stop.id → result ≡ scope_answer (I.ItemHost.tables self.now.items.now) stop.«data».kind (map (supposed_entry test.supposed) (all_entries self.now.tree.now)) test.name test.hygiene stop.id }
    {
        let local = local_in(self.tree, stop.id, test);
        local.or_else(|| ask_block(self.items, stop.data.kind, test.name))
    }

    // From a scope, or from outside, outward to the first that answers. A number that is no scope's
    // counts as outside.
    #[tactic(auto, using(crate::proofs::OnTrees::tree_step, crate::proofs::OnTrees::tree_end))]
    pub(crate) fn look_outward(&self, supposed: Option<Rename>, sought: Sought) -> Resolution
        ensures the_first_that_answers { result ≡ resolved (I.ItemHost.tables self.now.items.now) (E.ExpansionHost.expansions self.now.expansions.now) (supposing supposed (surroundings_of self.now.body.now self.now.tree.now)) sought }
    {
        let mut at = sought.from;
        let mut context = Context::begin(self.expansions, sought.hygiene);
        // No iterator over the chain: its contract would say again what this loop's says of the way.
        while let Some(stop) = stop_at(self.tree, at) {
            let test = ByNameAndHygiene {
                name: sought.name,
                hygiene: context.hygiene,
                supposed,
            };
            if let Some(found) = self.ask_scope(stop, test) {
                return found;
            }
            context = context.cross(self.expansions, stop.data.kind);
            at = stop.data.parent;
        }
        ask_outside(self.items, self.body, sought.name)
    }

    // What a name means where it stands, as if a binding had another name. No table is changed for it.
    pub fn resolve_name_supposing(
        &self,
        supposed: Option<Rename>,
        sought: Sought,
    ) -> Result<Resolution, QueryRefusal>
        ensures is_as_defined_on_the_rewritten_tables_or_refused { ForPlace self.now.tree.now sought.from result (λ q. q ≡ resolved (I.ItemHost.tables self.now.items.now) (E.ExpansionHost.expansions self.now.expansions.now) (supposing supposed (surroundings_of self.now.body.now self.now.tree.now)) sought) }
    {
        check_place(self.tree, sought.from)?;
        Ok(self.look_outward(supposed, sought))
    }

    // What a name means where it stands: the first declaration outward.
    pub fn resolve_name(&self, sought: Sought) -> Result<Resolution, QueryRefusal>
        ensures is_as_defined_or_refused { ForPlace self.now.tree.now sought.from result (λ q. q ≡ resolved (I.ItemHost.tables self.now.items.now) (E.ExpansionHost.expansions self.now.expansions.now) (surroundings_of self.now.body.now self.now.tree.now) sought) }
        ensures is_the_first_hit_outward { IfOk result (λ q. Finds (I.ItemHost.tables self.now.items.now) (E.ExpansionHost.expansions self.now.expansions.now) (surroundings_of self.now.body.now self.now.tree.now) sought.name sought.from (begun (E.ExpansionHost.expansions self.now.expansions.now) sought.hygiene) q) }
        ensures has_no_other_meaning { MeansOne }
        ensures goes_over_tables_with_parents_below { ParentsBelow (surroundings_of self.now.body.now self.now.tree.now) }
        ensures finds_no_local_declared_after_the_macro_but_of_its_own_hygiene { MixedSite }
        ensures looks_where_the_macro_is_defined { DefinitionSite }
        ensures is_defined_as_worked_out { ExamplesHold }
    {
        self.resolve_name_supposing(None, sought)
    }
}
