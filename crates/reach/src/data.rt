// What a scope tree is made of.
use format::ids::{BindingId, BlockId, HygieneId, LabelId, MacroId, Name, ScopeId};

// What made a scope.
#[derive(Clone, Copy, PartialEq, Eq)]
pub enum ScopeKind {
    Plain,
    // A block that may hold items.
    Block { id: BlockId, label: Option<LabelId> },
    // A labelled block or loop.
    Label(LabelId),
    // A macro definition, which divides what stands before it from what stands after.
    MacroDef(MacroId),
}

// A scope: its parent, what made it, and the range of the entry table in which its entries lie. Parent and
// range are numbers: the tables ask for no memory, and the ported crate has them so.
#[derive(Clone, Copy, PartialEq, Eq)]
pub struct ScopeData {
    pub parent: Option<ScopeId>,
    pub kind: ScopeKind,
    pub start: u16,
    pub end: u16,
}

// A name in a scope: the binding that it means, with that binding's name and hygiene, and the scope
// that it belongs to.
#[derive(Clone, Copy, PartialEq, Eq)]
pub struct ScopeEntry {
    pub name: Name,
    pub hygiene: HygieneId,
    pub binding: BindingId,
    pub scope: ScopeId,
}

// Where a node is visited: the current scope, and the scope for types, lengths and constants.
#[derive(Clone, Copy, PartialEq, Eq)]
pub struct Place {
    pub current: ScopeId,
    pub constant: ScopeId,
}
