// A scope tree in the order in which it is drawn: each scope before those in it, and those in it in
// order of number. There is no recursion, since scopes can lie hundreds deep.
ghost use Rattle.std.specs.Prelude.{◌≡◌, ◌+◌, ◌<◌, ◌≤◌, T, IfSome};
ghost use Rattle.reach.specs.Blank.{parent_of};
ghost use Rattle.scope.specs.Queries.{data_of};

use format::ids::ScopeId;
use scope::tables::ExprScopes;

// A scope, and how many scopes it lies in.
#[derive(Clone, Copy)]
pub struct Spot {
    pub scope: ScopeId,
    pub depth: u16,
}

fn is_in(tree: &ExprScopes, scope: ScopeId, outer: ScopeId) -> bool
    ensures only_where_that_is_its_parent { T result → parent_of (data_of tree.now scope).parent ≡ outer.0 }
{
    tree.parent(scope) == Ok(Some(outer))
}

// The scope of the lowest number after another that lies right in an outer one.
fn next_in(tree: &ExprScopes, outer: ScopeId, after: ScopeId) -> Option<ScopeId>
    ensures comes_after { IfSome result (λ s. after.0 < s.0) }
    ensures lies_right_in_it { IfSome result (λ s. parent_of (data_of tree.now s).parent ≡ outer.0) }
{
    // By number: that is how scopes are asked. Not `find`: what is asked here of the scope found is told
    // of each by `is_in`, and would be told of a closure once more.
    for number in after.0..tree.scope_count() {
        let scope = ScopeId(number + 1);
        if is_in(tree, scope, outer) {
            return Some(scope);
        }
    }
    None
}

impl Spot {
    // The root scope, which lies in no other.
    pub(crate) fn root() -> Spot
        ensures is_scope_1 { (result.scope.0 ≡ 1) × (result.depth ≡ 0) }
    {
        Spot {
            scope: ScopeId(1),
            depth: 0,
        }
    }

    // The first scope in this one; if there is none, the next one beside it; if there is none, the
    // next one beside the scope around it, and so outward.
    pub(crate) fn next(self, tree: &ExprScopes) -> Option<Spot>
        ensures is_one_deeper_at_the_most { IfSome result (λ s. s.depth ≤ self.depth + 1) }
    {
        let mut outer = self.scope;
        let mut after = self.scope;
        for up in 0..=self.depth {
            if let Some(scope) = next_in(tree, outer, after) {
                let depth = (self.depth - up).saturating_add(1);
                return Some(Spot { scope, depth });
            }
            after = outer;
            outer = tree.parent(outer).ok()??;
        }
        None
    }
}
