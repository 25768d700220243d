// The tree rules: refusal 5.
ghost use Rattle.std.specs.Prelude.{◌≡◌, ℕ, ◌+◌, ◌-◌, ◌*◌, ◌/◌, ◌<◌, ◌≤◌, length, Decides, MatchResult, None, Some, slice_index_or};
ghost use Rattle.framing.specs.Broken.{FaultAt};
ghost use Rattle.sheet.specs.Drafts.{drawn};
ghost use Rattle.sheet.specs.Shape.{node_at, sort_at, total};
ghost use Rattle.sheet.specs.Steps.{Claims, TreeFault};
ghost use Rattle.sheet.specs.Tree.{AddsUp, GoodChild, GoodNode, GoodTree};

use crate::draft::Draft;
use format::kind::Sort;
use framing::fault::{Fault, Part, Refusal};

// A draft whose counts add up, with the first child that names each node, by its number. No memory is
// asked for, so that is no map.
#[derive(Drop)]
struct Claimed<'a> {
    draft: Draft<'a>,
    first: [Option<u16>; 513],
    ghost adds_up: { AddsUp (drawn draft) },
    ghost claims: { Claims (drawn draft).children (length (drawn draft).children) first },
}

// A draft that keeps the tree rules.
#[derive(Clone, Copy)]
pub(crate) struct Tree<'a> {
    pub(crate) draft: Draft<'a>,
    ghost good: { GoodTree (drawn draft) },
}

impl<'a> Draft<'a> {
    // The sort of a node by its number, none for 0.
    fn sort_of(&self, c: usize) -> Option<Sort>
        requires is_there { c ≤ length (drawn self.now).nodes }
        ensures its_own { result ≡ sort_at (drawn self.now) c }
    {
        let i = c.checked_sub(1)?;
        Some(self.nodes[i].kind.sort())
    }

    // All child counts together: where the last node's children end.
    fn total_count(&self) -> usize
        ensures is_their_sum { result ≡ total (drawn self.now).nodes }
    {
        let last = self.nodes[self.nodes.len() - 1];
        last.first as usize + last.count as usize
    }

    // A tree, or the first of the tree rules that is broken.
    pub(crate) fn check_tree(&self) -> Result<Tree<'a>, Fault>
        ensures itself_or_the_first_refused { MatchResult result (λ t. t.draft ≡ self.now) (TreeFault (drawn self.now)) }
    {
        if self.total_count() != self.child_count() {
            return Err(Fault::of_part(Refusal::Tree, Part::Whole));
        }
        let claimed = Claimed {
            draft: *self,
            first: self.first_claims(),
        };
        // By place: which rules a node has goes by its place among the nodes.
        for i in 0..self.nodes.len() {
            claimed.check_node(i)?;
        }
        Ok(Tree { draft: *self })
    }
}

// That i is a node's place is asked at each, and of the marks: a type of such places would be made anew
// at each call.
impl<'a> Claimed<'a> {
    // Whether the child at a place among all children is the first to name node number c.
    #[tactic(auto, using(crate::proofs::Times::claim_from, crate::proofs::Times::from_claim))]
    fn is_first(&self, c: usize, q: usize) -> bool
        requires is_a_number { c < 513 }
        requires is_a_place { q < 1024 }
        ensures has_the_claim { Decides result (slice_index_or self.now.first c None ≡ Some q) }
    {
        let claim = self.first[c];
        claim == Some(q as u16)
    }

    // Whether the child at place j of node i is good.
    fn child_fits(&self, i: usize, j: usize) -> bool
        requires is_there { i < length (drawn self.now.draft).nodes }
        requires has_the_place { j < (node_at (drawn self.now.draft) i).count }
        ensures is_good { Decides result (GoodChild (drawn self.now.draft) i j) }
    {
        let node = self.draft.nodes[i];
        let q = node.first as usize + j;
        let c = self.draft.child_number(q) as usize;
        if c > i {
            return false;
        }
        if !node.kind.slot(j).admits(self.draft.sort_of(c)) {
            return false;
        }
        c == 0 || self.is_first(c, q)
    }

    // Whether all children of node i are good.
    fn children_fit(&self, i: usize) -> bool
        requires is_there { i < length (drawn self.now.draft).nodes }
        ensures all_good { Decides result ((j : ℕ) → j < (node_at (drawn self.now.draft) i).count → GoodChild (drawn self.now.draft) i j) }
    {
        // Tried with `all` over the places: its proof did not close.
        for j in 0..self.draft.nodes[i].count as usize {
            if !self.child_fits(i, j) {
                return false;
            }
        }
        true
    }

    // The rules at node i, or refusal 5 at its record.
    fn check_node(&self, i: usize) -> Result<(), Fault>
        requires is_there { i < length (drawn self.now.draft).nodes }
        ensures good_or_refused { MatchResult result
            (λ _. GoodNode (drawn self.now.draft) i)
            (λ f. FaultAt Refusal.Tree Part.Nodes i f × (GoodNode (drawn self.now.draft) i → ⊥)) }
    {
        let refused = Err(Fault::at_record(Refusal::Tree, Part::Nodes, i));
        let is_last = i + 1 == self.draft.nodes.len();
        if (self.draft.nodes[i].kind.sort() == Sort::Body) != is_last {
            return refused;
        }
        let claim = self.first[i + 1];
        if !is_last && claim.is_none() {
            return refused;
        }
        if !self.children_fit(i) {
            return refused;
        }
        Ok(())
    }
}
