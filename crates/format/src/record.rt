// A node's record, and the kind that it says.
ghost use Rattle.format.specs.Kinds.{Says, SaysOne};
ghost use Rattle.format.specs.declared.kind.NodeKind.{NodeKind as AnyKind};
ghost use Rattle.std.specs.Prelude.{◌≡◌, MatchOption};

use crate::kind::{NodeKind, NodeRecord, kind_from};

impl NodeRecord {
    // The kind that the record says in a sheet of so many bindings, or none where it says none.
    // A record that its kind would not write again, to the last field, says nothing.
    pub fn kind(self, bindings: u32) -> Option<NodeKind>
        ensures says_it_or_says_none { MatchOption result ((k : AnyKind) → Says bindings self k → ⊥) (λ k. Says bindings self k) }
        ensures says_one_at_the_most { SaysOne }
    {
        let kind = kind_from(self.code, self.a, self.b)?;
        let is_said = kind.field_a() == self.a
            && kind.field_b() == self.b
            && kind.is_named(bindings)
            && kind.count_fits(self.count);
        is_said.then_some(kind)
    }
}
