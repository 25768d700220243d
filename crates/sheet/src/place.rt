// Where a let may stand: refusal 6.
ghost use Rattle.std.specs.Prelude.{◌≡◌, ℕ, ◌+◌, ◌-◌, ◌*◌, ◌/◌, ◌<◌, ◌≤◌, true, false, length, Decides, MatchResult, slice_index_or};
ghost use Rattle.framing.specs.Broken.{FirstBroken};
ghost use Rattle.sheet.specs.Drafts.{drawn};
ghost use Rattle.sheet.specs.Shape.{node_at};
ghost use Rattle.sheet.specs.Steps.{Marked, Opens};
ghost use Rattle.sheet.specs.Tree.{InCondition, LetInPlace};

use crate::tree::Tree;
use format::kind::NodeKind;
use framing::fault::{Fault, Part, Refusal};

// Whether the child at place j of a node of a kind stands in condition place.
fn opens(kind: NodeKind, j: usize, above: bool) -> bool
    ensures a_condition { Decides result (Opens kind j (above ≡ true)) }
{
    match kind {
        NodeKind::If => j == 0,
        NodeKind::Arm => j == 1,
        NodeKind::And => above,
        _ => false,
    }
}

impl<'a> Tree<'a> {
    // Marks the children of node i that stand in condition place.
    fn mark_node(&self, marks: &mut [bool; 513], i: usize)
        requires is_there { i < length (drawn self.now.draft).nodes }
        requires later_nodes { Marked (drawn self.now.draft) i 0 marks.old }
        ensures this_one_too { Marked (drawn self.now.draft) i (node_at (drawn self.now.draft) i).count marks.new }
    {
        let node = self.draft.nodes[i];
        let above = marks[i + 1];
        // By place: which places of a node are conditions is what `opens` tells.
        for j in 0..node.count as usize {
            let c = self.draft.child_number(node.first as usize + j) as usize;
            if opens(node.kind, j, above) {
                marks[c] = true;
            }
        }
    }

    // Which node numbers stand in condition place: parents come after their children, so one pass
    // from the last node down settles each node before its children are looked at. The answer has a
    // place a number; no memory is asked for, so it is no set.
    fn conditions(&self) -> [bool; 513]
        ensures just_those { (c : ℕ) → Decides (slice_index_or result c false) (InCondition (drawn self.now.draft) c) }
    {
        let mut marks = [false; 513];
        for i in (0..self.draft.nodes.len()).rev() {
            self.mark_node(&mut marks, i);
        }
        marks
    }

    // Refusal 6 at the first let that stands in another place.
    pub(crate) fn check_lets(&self) -> Result<(), Fault>
        ensures in_place_or_the_first_refused { MatchResult result
            (λ _. (i : ℕ) → i < length (drawn self.now.draft).nodes → LetInPlace (drawn self.now.draft) i)
            (FirstBroken (LetInPlace (drawn self.now.draft)) (length (drawn self.now.draft).nodes) Refusal.LetPlace Part.Nodes) }
    {
        let marks = self.conditions();
        for (i, node) in self.draft.nodes.iter().enumerate() {
            if node.kind == NodeKind::Let && !marks[i + 1] {
                return Err(Fault::at_record(Refusal::LetPlace, Part::Nodes, i));
            }
        }
        Ok(())
    }
}
