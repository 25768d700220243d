// A node as text: its kind, and its children by number.
use crate::show::kinds::KindText;
use format::ids::NodeId;
use sheet::body::Body;
use std::fmt;

// A node of a body.
#[derive(Clone, Copy)]
pub struct NodeText<'a> {
    pub body: &'a Body,
    pub id: NodeId,
}

impl NodeText<'_> {
    // The children place by place, each after a space: its number, or `-` where it is absent.
    fn children<W: fmt::Write>(&self, f: &mut fmt::Formatter<W>) -> fmt::Result {
        for child in self.body.children(self.id).unwrap_or(&[]) {
            match child {
                Some(child) => write!(f, " {}", child.number())?,
                None => f.write_str(" -")?,
            }
        }
        Ok(())
    }
}

impl fmt::Display for NodeText<'_> {
    fn fmt<W: fmt::Write>(&self, f: &mut fmt::Formatter<W>) -> fmt::Result {
        let Some(node) = self.body.node(self.id) else {
            return f.write_str("no such node");
        };
        let kind = KindText(node.kind);
        write!(f, "{kind}")?;
        if node.count == 0 {
            return Ok(());
        }
        f.write_str(", children")?;
        self.children(f)
    }
}
