// The kinds of node as text.
ghost use Rattle.std.specs.Prelude.{◌<◌, length};

use crate::show::numbers::write_number;
use format::kind::NodeKind;
use std::fmt;

// The name of a kind, without the numbers that some kinds carry.
fn word(kind: NodeKind) -> &'static str
    ensures is_never_empty { 0 < length result.now }
{
    match kind {
        NodeKind::Leaf => "leaf",
        NodeKind::Use { .. } => "use",
        NodeKind::Sequence => "sequence",
        NodeKind::And => "and",
        NodeKind::If => "if",
        NodeKind::Let => "let",
        NodeKind::Block { .. } => "block",
        NodeKind::Loop { .. } => "loop",
        NodeKind::Closure => "closure",
        NodeKind::Match => "match",
        NodeKind::Const => "const",
        NodeKind::Repeat => "repeat",
        NodeKind::Cast => "cast",
        NodeKind::LeafPattern => "leaf pattern",
        NodeKind::Bind { .. } => "bind",
        NodeKind::Patterns => "patterns",
        NodeKind::ValuePattern => "value pattern",
        NodeKind::LeafType => "leaf type",
        NodeKind::Types => "types",
        NodeKind::ArrayType => "array type",
        NodeKind::LetStatement => "let statement",
        NodeKind::ExprStatement => "expression statement",
        NodeKind::MacroDef { .. } => "definition",
        NodeKind::OtherItem => "other item",
        NodeKind::Arm => "arm",
        NodeKind::Body { .. } => "body",
    }
}

#[derive(Clone, Copy)]
pub struct KindText(pub NodeKind);

impl fmt::Display for KindText {
    fn fmt<W: fmt::Write>(&self, f: &mut fmt::Formatter<W>) -> fmt::Result {
        f.write_str(word(self.0))?;
        match self.0 {
            NodeKind::Use { name, hygiene } => {
                write!(f, " of name {}, hygiene {}", name.0, hygiene.0)
            }
            NodeKind::Block { id, label } => {
                write_number(" ", id.map(|id| id.0), f)?;
                write_number(", label ", label.map(|label| label.0), f)
            }
            NodeKind::Loop { label } => { write_number(", label ", label.map(|label| label.0), f) }
            NodeKind::Bind { binding } => write!(f, " of binding {}", binding.0),
            NodeKind::MacroDef { id } => write!(f, " of macro {}", id.0),
            NodeKind::Body { self_binding } => {
                write_number(", self is binding ", self_binding.map(|own| own.0), f)
            }
            _ => Ok(()),
        }
    }
}
