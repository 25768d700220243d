// The uses of a body: what each asks for, and what it means.
ghost use Rattle.resolve.specs.Outward.{resolved, surroundings_of};
ghost use Rattle.format.specs.declared.ids.BindingId.{BindingId as Variable};
ghost use Rattle.reach.specs.Held.{shape_of};
ghost use Rattle.reach.specs.Words.{ReachLaw};
ghost use Rattle.resolve.specs.Reaching.{Reached};
ghost use Rattle.resolve.specs.Uses.{ForUse};
ghost use Rattle.scope.specs.Told.{told};
ghost use Rattle.sheet.specs.Held.{nodes_of};
ghost use Rattle.std.specs.Prelude.{◌≡◌, length, IfOk};

use crate::resolution::Resolution;
use crate::resolver::Resolver;
use crate::sought::Sought;
use format::ids::NodeId;
use format::kind::NodeKind;
use host::hosts::{ExpansionHost, ItemHost};
use scope::refusal::QueryRefusal;
use scope::tables::ExprScopes;
use sheet::body::Body;

// What a use asks for: its name and its hygiene, from the scope recorded for it. No method of a
// resolver, since it asks neither host and its callers need have none.
pub fn use_at(body: &Body, tree: &ExprScopes, node: NodeId) -> Result<Sought, QueryRefusal>
    ensures is_what_the_use_asks_or_refused { ForUse body.now tree.now node result (λ q s. s ≡ q) }
{
    let record = body.node(node).ok_or(QueryRefusal::NoExpression)?;
    let NodeKind::Use { name, hygiene } = record.kind else {
        return Err(QueryRefusal::NoExpression);
    };
    let from = Some(tree.scope_for(node)?);
    Ok(Sought {
        from,
        name,
        hygiene,
    })
}

impl<'a, I: ItemHost, E: ExpansionHost> Resolver<'a, I, E> {
    // What a use means.
    pub fn resolve_use(&self, node: NodeId) -> Result<Resolution, QueryRefusal>
        ensures is_what_its_name_means_or_refused { ForUse self.now.body.now self.now.tree.now node result (λ q m. m ≡ resolved (I.ItemHost.tables self.now.items.now) (E.ExpansionHost.expansions self.now.expansions.now) (surroundings_of self.now.body.now self.now.tree.now) q) }
        ensures is_a_local_only_where_the_local_reaches { ReachLaw (shape_of self.now.body.now) (length (nodes_of self.now.body.now)) (told self.now.tree.now) → IfOk result (λ m. (v : Variable) → m ≡ Resolution.Local v → Reached (shape_of self.now.body.now) (length (nodes_of self.now.body.now)) v node.raw) }
    {
        let sought = use_at(self.body, self.tree, node)?;
        Ok(self.look_outward(None, sought))
    }
}
