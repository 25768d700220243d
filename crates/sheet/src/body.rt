// A body: the tables of a lawful sheet.
ghost use Rattle.std.specs.Prelude.{ℕ, ◌≤◌, length};
ghost use Rattle.sheet.specs.Lawful.{AllAdmitted, AllBindingsNamed, AllCounted, AllFramesNumbered, AllLower, AllNamed, BodyLast, LetsInPlace, Once, shape_of};
ghost use Rattle.table.specs.Tables.{listed};
ghost use Rattle.sheet.specs.Tree.{AddsUp, LaidOut};

use crate::node::{Binding, Frame, Node};
use format::ids::NodeId;
use table::Table;

// Every body that can exist is lawful: that is what its ghost fields say.
#[derive(Drop)]
pub struct Body {
    nodes: Table<Node, 512>,
    children: Table<Option<NodeId>, 1024>,
    bindings: Table<Binding, 256>,
    frames: Table<Frame, 16>,
    ghost some: { 1 ≤ length (listed nodes) },
    ghost laid_out: { LaidOut (shape_of nodes children) },
    ghost adds_up: { AddsUp (shape_of nodes children) },
    ghost named: { AllNamed (length (listed bindings)) (shape_of nodes children) },
    ghost counted: { AllCounted (shape_of nodes children) },
    ghost admitted: { AllAdmitted (shape_of nodes children) },
    ghost lower: { AllLower (shape_of nodes children) },
    ghost once: { Once (shape_of nodes children) },
    ghost body_last: { BodyLast (shape_of nodes children) },
    ghost lets: { ∥ LetsInPlace (shape_of nodes children) ∥₁ },
    ghost bindings_named: { AllBindingsNamed (listed bindings) },
    ghost frames_numbered: { AllFramesNumbered (listed frames) },
}

pub mod parts;
pub mod read;
