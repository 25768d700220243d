// The nodes of a sheet with its children as written, before the tree rules are looked at.
ghost use Rattle.std.specs.Prelude.{◌/◌, ◌≤◌, length};
ghost use Rattle.sheet.specs.Records.{numbers};
ghost use Rattle.sheet.specs.Shape.{shape};
ghost use Rattle.sheet.specs.Tree.{LaidOut};

use crate::node::Node;

#[derive(Clone, Copy)]
pub(crate) struct Draft<'a> {
    pub(crate) nodes: &'a [Node],
    pub(crate) children: &'a [u8],
    ghost some: { 1 ≤ length nodes.now },
    ghost few_nodes: { length nodes.now ≤ 512 },
    ghost few_children: { length children.now / 2 ≤ 1024 },
    ghost laid_out: { LaidOut (shape nodes.now (numbers children.now)) },
}
