// The visit of a body, which makes its scopes.
ghost use Rattle.std.specs.Prelude.{◌≡◌, ℕ, ◌+◌, ◌-◌, ◌*◌, ◌<◌, ◌≤◌, drop, Some, None, slice_index, slice_index_or};
ghost use Rattle.format.specs.Ids.{number_of};
ghost use Rattle.reach.specs.Held.{shape_of};
ghost use Rattle.reach.specs.Shape.{node_at};
ghost use Rattle.reach.specs.Visit.{added, all, each, inner, labelled, made, opened, others, put, self_in, selfed, size_of, sizes, skip, step, total, visit_of, visits};
ghost use Rattle.builder.specs.Told.{Grew, Grown, Inside, Room, Stands, entry_count, scope_count, told};

use crate::tables::Tables;
use format::ids::{BindingId, BlockId, HygieneId, LabelId, Name, NodeId, ScopeId};
use format::kind::NodeKind;
use reach::data::{Place, ScopeData, ScopeEntry, ScopeKind};
use sheet::body::Body;
use sheet::node::{BLANK_NODE, Node};

fn labelled_kind(label: Option<LabelId>) -> ScopeKind
    ensures by_the_label { result ≡ labelled label }
{
    label.map_or(ScopeKind::Plain, ScopeKind::Label)
}

// The node of a number, with the laws of its visit and its size.
pub(crate) fn look(body: &Body, n: NodeId) -> Node
    ensures it { result ≡ node_at (shape_of body.now).nodes n.raw }
    ensures means { visit_of (shape_of body.now) n.raw ≡ step n.raw result.kind (visits (shape_of body.now) n.raw) }
    ensures size { size_of (shape_of body.now) n.raw ≡ 1 + total (sizes (shape_of body.now) n.raw) }
    ensures first { total (sizes (shape_of body.now) n.raw) ≡ slice_index (sizes (shape_of body.now) n.raw) 0 + total (drop 1 (sizes (shape_of body.now) n.raw)) }
    ensures second { slice_index (sizes (shape_of body.now) n.raw) 1 + slice_index (sizes (shape_of body.now) n.raw) 2 ≤ total (drop 1 (sizes (shape_of body.now) n.raw)) }
    ensures pairs { total (drop 1 (sizes (shape_of body.now) n.raw)) ≡ slice_index (sizes (shape_of body.now) n.raw) 1 + (total (others (drop 2 (sizes (shape_of body.now) n.raw))) + total (others (drop 3 (sizes (shape_of body.now) n.raw)))) }
{
    body.node(n).unwrap_or(BLANK_NODE)
}

impl Tables {
    #[tactic(auto, unfolding(reach::specs::Visit::made))]
    fn make(&mut self, parent: ScopeId, kind: ScopeKind) -> ScopeId
        requires room { scope_count self.old < 1023 }
        requires there { Stands self.old.scopes parent }
        ensures there { Stands self.new.scopes result }
        ensures is { made kind parent (told self.old) ≡ (told self.new, result) }
        ensures grew { Grew self.old self.new 1 0 }
    {
        let at = self.entries.len() as u16;
        self.scopes.push(ScopeData {
            parent: Some(parent),
            kind,
            start: at,
            end: at,
        })
    }

    #[tactic(auto, unfolding(reach::specs::Visit::put))]
    fn place(&mut self, n: NodeId, s: ScopeId)
        ensures is { put n.raw s (told self.old) ≡ told self.new }
        ensures grew { Grew self.old self.new 0 0 }
    {
        self.recorded.put(n, s);
    }

    // An entry to a scope, whose range then ends after it. Its name is filled in at the end.
    #[tactic(auto, unfolding(reach::specs::Visit::added))]
    pub(crate) fn enter(&mut self, s: ScopeId, binding: BindingId)
        requires room { entry_count self.old < 512 }
        requires there { Stands self.old.scopes s }
        ensures is { added binding s (told self.old) ≡ told self.new }
        ensures grew { Grew self.old self.new 0 1 }
    {
        self.entries.push(ScopeEntry {
            name: Name(0),
            hygiene: HygieneId(0),
            binding,
            scope: s,
        });
        let end = self.entries.len() as u16;
        self.scopes.widen(s, end);
    }

    fn open(&mut self, id: Option<BlockId>, label: Option<LabelId>, at: Place) -> Place
        requires room { scope_count self.old + 2 ≤ 1023 }
        requires inside { Inside self.old at }
        ensures inside { Inside self.new result }
        ensures is { opened id label at (told self.old) ≡ (told self.new, result) }
        ensures grew { Grew self.old self.new 2 0 }
    {
        match id {
            Some(id) => {
                let current = self.make(at.current, ScopeKind::Block { id, label });
                let constant = self.make(at.constant, ScopeKind::Block { id, label: None });
                Place { current, constant }
            }
            None => {
                let current = self.make(at.current, labelled_kind(label));
                Place { current, ..at }
            }
        }
    }

    // A scope of a kind beneath the current one, which it replaces.
    #[tactic(auto, unfolding(reach::specs::Visit::inner))]
    fn deepen(&mut self, kind: ScopeKind, at: Place) -> Place
        requires room { scope_count self.old < 1023 }
        requires inside { Inside self.old at }
        ensures is { inner kind at (told self.old) ≡ (told self.new, result) }
        ensures inside { Inside self.new result }
        ensures grew { Grew self.old self.new 1 0 }
    {
        let current = self.make(at.current, kind);
        Place { current, ..at }
    }
}

// The body goes through the whole visit, and the node and the place differ at each call, so they are handed
// on one by one.
impl Tables {
    // Visits node n at a place, and gives the place that what follows it is visited at.
    #[cycle(visit_visit_at_visit_each_visit_from_visit_pairs)]
    #[tactic(auto, unfolding(reach::specs::Visit::step))]
    fn visit(&mut self, body: &Body, n: NodeId, at: Place) -> Place
        requires room { Room self.old at (size_of (shape_of body.now) n.raw) }
        ensures is { visit_of (shape_of body.now) n.raw at (told self.old) ≡ (told self.new, result) }
        ensures grown { Grown self.old self.new result (size_of (shape_of body.now) n.raw) }
    {
        let node = look(body, n);
        let still = Place {
            current: at.constant,
            constant: at.constant,
        };
        // Each kind has an arm of its own, also where two are visited alike: each is one clause of the
        // definition, and the two are read side by side.
        match node.kind {
            NodeKind::Leaf => {
                self.place(n, at.current);
                at
            }
            NodeKind::Use { .. } => {
                self.place(n, at.current);
                at
            }
            NodeKind::Sequence => {
                self.place(n, at.current);
                self.visit_each(body, n, 0, at);
                at
            }
            NodeKind::And => {
                self.place(n, at.current);
                let left = self.visit_at(body, n, 0, at);
                self.visit_at(body, n, 1, left)
            }
            NodeKind::If => {
                self.place(n, at.current);
                let opened = self.deepen(ScopeKind::Plain, at);
                let held = self.visit_at(body, n, 0, opened);
                self.visit_at(body, n, 1, held);
                self.visit_at(body, n, 2, at);
                at
            }
            NodeKind::Let => {
                self.place(n, at.current);
                self.visit_at(body, n, 1, at);
                let bound = self.deepen(ScopeKind::Plain, at);
                self.visit_at(body, n, 0, bound);
                bound
            }
            NodeKind::Block { id, label } => {
                self.place(n, at.current);
                let opened = self.open(id, label, at);
                self.place(n, opened.current);
                let last = self.visit_from(body, n, 1, opened);
                self.visit_at(body, n, 0, last);
                at
            }
            NodeKind::Loop { label } => {
                self.place(n, at.current);
                let opened = self.deepen(labelled_kind(label), at);
                self.visit_at(body, n, 0, opened);
                at
            }
            NodeKind::Closure => {
                self.place(n, at.current);
                self.visit_pairs(body, n, 3, still);
                self.visit_at(body, n, 1, still);
                let opened = self.deepen(ScopeKind::Plain, at);
                self.visit_pairs(body, n, 2, opened);
                self.visit_at(body, n, 0, opened);
                at
            }
            NodeKind::Match => {
                self.place(n, at.current);
                self.visit_at(body, n, 0, at);
                self.visit_each(body, n, 1, at);
                at
            }
            NodeKind::Const => {
                self.place(n, at.current);
                self.visit_at(body, n, 0, still);
                at
            }
            NodeKind::Repeat => {
                self.place(n, at.current);
                self.visit_at(body, n, 0, at);
                self.visit_at(body, n, 1, still);
                at
            }
            NodeKind::Cast => {
                self.place(n, at.current);
                self.visit_at(body, n, 0, at);
                self.visit_at(body, n, 1, still);
                at
            }
            NodeKind::LeafPattern => at,
            NodeKind::Bind { binding } => {
                self.enter(at.current, binding);
                self.visit_each(body, n, 0, at);
                at
            }
            NodeKind::Patterns => {
                self.visit_each(body, n, 0, at);
                at
            }
            NodeKind::ValuePattern => {
                self.visit_each(body, n, 0, at);
                at
            }
            NodeKind::LeafType => at,
            NodeKind::Types => {
                self.visit_each(body, n, 0, still);
                at
            }
            NodeKind::ArrayType => {
                self.visit_each(body, n, 0, still);
                at
            }
            NodeKind::LetStatement => {
                self.visit_each(body, n, 1, at);
                let opened = self.deepen(ScopeKind::Plain, at);
                self.visit_at(body, n, 0, opened);
                opened
            }
            NodeKind::ExprStatement => {
                self.visit_at(body, n, 0, at);
                at
            }
            NodeKind::MacroDef { id } => {
                let current = self.make(at.current, ScopeKind::MacroDef(id));
                let constant = self.make(at.constant, ScopeKind::MacroDef(id));
                Place { current, constant }
            }
            NodeKind::OtherItem => at,
            NodeKind::Arm => {
                let opened = self.deepen(ScopeKind::Plain, at);
                self.visit_at(body, n, 0, opened);
                let held = self.visit_at(body, n, 1, opened);
                self.visit_at(body, n, 2, held);
                at
            }
            NodeKind::Body { .. } => at,
        }
    }

    // Visits the child of n at a place, if there is one.
    #[cycle(visit_visit_at_visit_each_visit_from_visit_pairs)]
    #[tactic(auto, using(reach::proofs::Fold::below_read))]
    pub(crate) fn visit_at(&mut self, body: &Body, n: NodeId, i: u16, at: Place) -> Place
        requires room { Room self.old at (slice_index (sizes (shape_of body.now) n.raw) i) }
        ensures is { slice_index_or (visits (shape_of body.now) n.raw) i skip at (told self.old) ≡ (told self.new, result) }
        ensures grown { Grown self.old self.new result (slice_index (sizes (shape_of body.now) n.raw) i) }
    {
        match body.child(n, i) {
            Some(c) => self.visit(body, c, at),
            None => at,
        }
    }

    // Visits every second child of n from a place on, each at the same place.
    #[cycle(visit_visit_at_visit_each_visit_from_visit_pairs)]
    #[tactic(auto, using(reach::proofs::Fold::pairs_step, reach::proofs::Fold::pairs_turn))]
    fn visit_pairs(&mut self, body: &Body, n: NodeId, from: u16, at: Place)
        requires room { Room self.old at (total (others (drop from (sizes (shape_of body.now) n.raw)))) }
        ensures is { each (others (drop from (visits (shape_of body.now) n.raw))) at (told self.old) ≡ told self.new }
        ensures grown { Grown self.old self.new at (total (others (drop from (sizes (shape_of body.now) n.raw)))) }
    {
        let node = look(body, n);
        // By place, here and below: a node's tree is defined by the places of its children.
        for i in (from..node.count).step_by(2) {
            self.visit_at(body, n, i, at);
        }
    }

    // Visits the children of n from a place on, each at the same place.
    #[cycle(visit_visit_at_visit_each_visit_from_visit_pairs)]
    #[tactic(auto, using(reach::proofs::Fold::total_step, reach::proofs::Fold::each_turn))]
    pub(crate) fn visit_each(&mut self, body: &Body, n: NodeId, from: u16, at: Place)
        requires room { Room self.old at (total (drop from (sizes (shape_of body.now) n.raw))) }
        ensures is { each (drop from (visits (shape_of body.now) n.raw)) at (told self.old) ≡ told self.new }
        ensures grown { Grown self.old self.new at (total (drop from (sizes (shape_of body.now) n.raw))) }
    {
        let node = look(body, n);
        for i in from..node.count {
            self.visit_at(body, n, i, at);
        }
    }

    // Visits the children of n from a place on, each at the place that the one before left.
    #[cycle(visit_visit_at_visit_each_visit_from_visit_pairs)]
    #[tactic(auto, using(reach::proofs::Fold::total_step, reach::proofs::Fold::all_turn))]
    fn visit_from(&mut self, body: &Body, n: NodeId, from: u16, at: Place) -> Place
        requires room { Room self.old at (total (drop from (sizes (shape_of body.now) n.raw))) }
        ensures is { all (drop from (visits (shape_of body.now) n.raw)) at (told self.old) ≡ (told self.new, result) }
        ensures grown { Grown self.old self.new result (total (drop from (sizes (shape_of body.now) n.raw))) }
    {
        let node = look(body, n);
        let mut now_at = at;
        for i in from..node.count {
            now_at = self.visit_at(body, n, i, now_at);
        }
        now_at
    }
}
