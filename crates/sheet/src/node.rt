// The records of a body.
use format::ids::{BindingId, BlockId, HygieneId, Name, OwnerId};
use format::kind::NodeKind;

// A node: its kind, where its children begin among all children, and how many it has. They lie in one
// table and not in a box of the node's own, since no memory is asked for.
#[derive(Clone, Copy, PartialEq, Eq)]
pub struct Node {
    pub kind: NodeKind,
    pub first: u32,
    pub count: u16,
}

// What a pattern may bind: a name, and the expansion that wrote it.
#[derive(Clone, Copy, PartialEq, Eq)]
pub struct Binding {
    pub name: Name,
    pub hygiene: HygieneId,
}

// What stands around the body.
#[derive(Clone, Copy, PartialEq, Eq)]
pub enum Frame {
    // The generic parameters of an impl.
    ImplGenerics(OwnerId),
    // The generic parameters of another owner.
    Generics(OwnerId),
    // A block.
    Block(BlockId),
}

pub const BLANK_NODE: Node = Node {
    kind: NodeKind::Leaf,
    first: 0,
    count: 0,
};

pub const BLANK_BINDING: Binding = Binding {
    name: Name(0),
    hygiene: HygieneId(0),
};
