// The scope tree of a whole body.
ghost use Rattle.std.specs.Prelude.{◌≡◌, ℕ, ◌<◌, ◌≤◌, map, length};
ghost use Rattle.reach.specs.Held.{shape_of};
ghost use Rattle.reach.specs.Named.{Named, name_of};
ghost use Rattle.reach.specs.Visit.{built, self_in, selfed};
ghost use Rattle.builder.specs.Told.{Grew, Stands, bare_entries, entry_count, told};
ghost use Rattle.sheet.specs.Held.{bindings_of, nodes_of};
ghost use Rattle.table.specs.Tables.{listed};

use crate::tables::visit::look;
use crate::tables::{Recorded, Scopes, Tables};
use format::ids::{BindingId, HygieneId, Name, ScopeId};
use format::kind::NodeKind;
use reach::data::{Place, ScopeEntry};
use sheet::body::Body;
use sheet::node::{BLANK_BINDING, Binding};
use table::Table;

// What the table has at the places where no entry stands yet.
const BLANK_ENTRY: ScopeEntry = ScopeEntry {
    name: Name(0),
    hygiene: HygieneId(0),
    binding: BindingId(0),
    scope: ScopeId(0),
};

// The binding of self, where the node is a body that has one.
fn self_binding(kind: NodeKind) -> Option<BindingId>
    ensures of_a_body { result ≡ self_in kind }
{
    match kind {
        NodeKind::Body { self_binding } => self_binding,
        _ => None,
    }
}

// A binding's record, which is blank for a number that no binding has.
fn binding_of(body: &Body, b: BindingId) -> Binding
    ensures its_own { result ≡ name_of (bindings_of body.now) b }
{
    body.binding(b).unwrap_or(BLANK_BINDING)
}

// Gives each entry the name and the hygiene of its binding.
fn name_all(entries: &mut Table<ScopeEntry, 512>, body: &Body)
    ensures same_entries { bare_entries entries.new ≡ bare_entries entries.old }
    ensures each_named { Named (bindings_of body.now) (listed entries.new) }
{
    // By place: a table lends none of its records to be changed, so that its own laws stand.
    for i in 0..entries.len() {
        let entry = entries.as_slice()[i];
        let by = binding_of(body, entry.binding);
        entries.set(
            i,
            ScopeEntry {
                name: by.name,
                hygiene: by.hygiene,
                ..entry
            },
        );
    }
}

impl Tables {
    // The entry of self, where there is one.
    fn enter_self(&mut self, binding: Option<BindingId>, at: Place)
        requires room { entry_count self.old < 512 }
        requires there { Stands self.old.scopes at.current }
        ensures is { selfed binding at (told self.old) ≡ told self.new }
        ensures grew { Grew self.old self.new 0 1 }
    {
        if let Some(binding) = binding {
            self.enter(at.current, binding);
        }
    }

    // The tables of a body: scope 1 with self and the parameters, then the expression.
    pub fn of_body(body: &Body) -> Tables
        ensures is_the_tree_of_the_visit { built (shape_of body.now) (length (nodes_of body.now)) ≡ told result }
        ensures names_each_entry { Named (bindings_of body.now) (listed result.entries) }
    {
        let mut tree = Tables {
            scopes: Scopes::root(),
            entries: Table::new(BLANK_ENTRY),
            recorded: Recorded::new(),
        };
        let at = Place {
            current: ScopeId(1),
            constant: ScopeId(1),
        };
        let root = body.root();
        let node = look(body, root);
        tree.enter_self(self_binding(node.kind), at);
        tree.visit_each(body, root, 1, at);
        tree.visit_at(body, root, 0, at);
        name_all(&mut tree.entries, body);
        tree
    }
}
