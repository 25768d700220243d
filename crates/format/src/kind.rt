// The kinds of node, and the kind of a number and two fields.
ghost use Rattle.format.specs.Kinds.{kind_from, writes};
ghost use Rattle.std.specs.Prelude.{◌≡◌, IfSome};

use crate::ids::{BindingId, BlockId, HygieneId, LabelId, MacroId, Name};

#[derive(Clone, Copy, PartialEq, Eq)]
pub enum NodeKind {
    // Expressions.
    Leaf,
    Use {
        name: Name,
        hygiene: HygieneId,
    },
    Sequence,
    And,
    If,
    Let,
    Block {
        id: Option<BlockId>,
        label: Option<LabelId>,
    },
    Loop {
        label: Option<LabelId>,
    },
    Closure,
    Match,
    Const,
    Repeat,
    Cast,
    // Patterns.
    LeafPattern,
    Bind {
        binding: BindingId,
    },
    Patterns,
    ValuePattern,
    // Types.
    LeafType,
    Types,
    ArrayType,
    // Statements.
    LetStatement,
    ExprStatement,
    MacroDef {
        id: MacroId,
    },
    OtherItem,
    Arm,
    Body {
        self_binding: Option<BindingId>,
    },
}

// What a node is, whatever its kind.
#[derive(Clone, Copy, PartialEq, Eq)]
pub enum Sort {
    Expression,
    Pattern,
    Type,
    Statement,
    Arm,
    Body,
}

// What a place among a node's children admits: one sort, and whether the child may be absent. Both are
// always there, so this is no option.
#[derive(Clone, Copy, PartialEq, Eq)]
pub struct Slot {
    pub sort: Sort,
    pub optional: bool,
}

// A node's record as the bytes have it.
#[derive(Clone, Copy, PartialEq, Eq)]
pub struct NodeRecord {
    pub code: u8,
    pub count: u16,
    pub a: u32,
    pub b: u32,
}

// The only kind that a number and two fields can be the writing of. Kinds have fields, so their
// numbers are no discriminants. Not `TryFrom`: what the record says goes by its count and the sheet too.
pub(crate) fn kind_from(code: u8, a: u32, b: u32) -> Option<NodeKind>
    ensures the_only_one { result ≡ kind_from code a b }
    ensures of_that_number { IfSome result (λ k. (writes k).code ≡ code) }
{
    match code {
        1 => Some(NodeKind::Leaf),
        2 => Some(NodeKind::Use {
            name: Name(a),
            hygiene: HygieneId(b),
        }),
        3 => Some(NodeKind::Sequence),
        4 => Some(NodeKind::And),
        5 => Some(NodeKind::If),
        6 => Some(NodeKind::Let),
        7 => Some(NodeKind::Block {
            id: (a != 0).then_some(BlockId(a)),
            label: (b != 0).then_some(LabelId(b)),
        }),
        8 => Some(NodeKind::Loop {
            label: (a != 0).then_some(LabelId(a)),
        }),
        9 => Some(NodeKind::Closure),
        10 => Some(NodeKind::Match),
        11 => Some(NodeKind::Const),
        12 => Some(NodeKind::Repeat),
        13 => Some(NodeKind::Cast),
        20 => Some(NodeKind::LeafPattern),
        21 => Some(NodeKind::Bind {
            binding: BindingId(a),
        }),
        22 => Some(NodeKind::Patterns),
        23 => Some(NodeKind::ValuePattern),
        30 => Some(NodeKind::LeafType),
        31 => Some(NodeKind::Types),
        32 => Some(NodeKind::ArrayType),
        40 => Some(NodeKind::LetStatement),
        41 => Some(NodeKind::ExprStatement),
        42 => Some(NodeKind::MacroDef { id: MacroId(a) }),
        43 => Some(NodeKind::OtherItem),
        50 => Some(NodeKind::Arm),
        60 => Some(NodeKind::Body {
            self_binding: (a != 0).then_some(BindingId(a)),
        }),
        _ => None,
    }
}
