// What a body holds, told by number.
ghost use Rattle.std.specs.Prelude.{◌≡◌, ℕ, ◌+◌, ◌-◌, ◌<◌, ◌≤◌, length, None, IfSome, MatchOption, slice_index_or};
ghost use Rattle.format.specs.Ids.{number_of};
ghost use Rattle.sheet.specs.Held.{bindings_of, children_of, frames_of, nodes_of, tree_of};
ghost use Rattle.table.specs.Tables.{found};

use crate::body::Body;
use crate::node::{Binding, Frame, Node};
use format::ids::{BindingId, NodeId};

impl Body {
    // How many nodes there are, which is the number of the last.
    pub fn node_count(&self) -> usize
        ensures counts_the_nodes { result ≡ length (nodes_of self.now) }
    {
        self.nodes.len()
    }

    // The last node, the body itself.
    pub fn root(&self) -> NodeId
        ensures is_the_last { result.raw ≡ length (nodes_of self.now) }
    {
        NodeId {
            raw: self.nodes.len() as u16,
        }
    }

    pub fn node(&self, n: NodeId) -> Option<Node>
        ensures is_that_node { result ≡ found (nodes_of self.now) (n.raw - 1) }
    {
        self.nodes.get(n.index())
    }

    // The child at a place, from 0; none where it is absent or there is no such place.
    pub fn child(&self, n: NodeId, place: u16) -> Option<NodeId>
        ensures is_that_child { result ≡ slice_index_or (children_of self.now (n.raw - 1)) place None }
        ensures is_lower { number_of result < n.raw }
    {
        *self.children(n)?.get(usize::from(place))?
    }

    // The children of a node place by place, each of which may be absent; none for a number that no
    // node has.
    pub fn children(&self, n: NodeId) -> Option<&[Option<NodeId>]>
        ensures none_just_where_no_node_is { MatchOption result (length (nodes_of self.now) < n.raw) (λ _. n.raw ≤ length (nodes_of self.now)) }
        ensures are_its_children { IfSome result (λ cs. cs.now ≡ children_of self.now (n.raw - 1)) }
    {
        let node = self.node(n)?;
        let first = node.first as usize;
        let end = first + usize::from(node.count);
        Some(&self.children.as_slice()[first..end])
    }

    pub fn child_count(&self) -> usize
        ensures counts_the_children { result ≡ length (tree_of self.now).children }
    {
        self.children.len()
    }

    pub fn binding_count(&self) -> usize
        ensures counts_the_bindings { result ≡ length (bindings_of self.now) }
    {
        self.bindings.len()
    }

    // The bindings, of which the first has the number 1.
    pub fn bindings(&self) -> &[Binding]
        ensures are_the_bindings { result.now ≡ bindings_of self.now }
    {
        self.bindings.as_slice()
    }

    // A binding by its number, from 1.
    pub fn binding(&self, b: BindingId) -> Option<Binding>
        ensures none_for_0 { b.0 ≡ 0 → result ≡ None }
        ensures is_that_binding { 0 < b.0 → result ≡ found (bindings_of self.now) (b.0 - 1) }
    {
        let i = b.0.checked_sub(1)?;
        self.bindings.get(i as usize)
    }

    pub fn frame_count(&self) -> usize
        ensures counts_the_frames { result ≡ length (frames_of self.now) }
    {
        self.frames.len()
    }

    // The frames, the outermost first.
    pub fn frames(&self) -> &[Frame]
        ensures are_the_frames { result.now ≡ frames_of self.now }
    {
        self.frames.as_slice()
    }

    // A frame by its place from 0, the outermost.
    pub fn frame(&self, i: usize) -> Option<Frame>
        ensures is_that_frame { result ≡ found (frames_of self.now) i }
    {
        self.frames.get(i)
    }
}
