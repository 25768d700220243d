// A scope as text: what made it, and the names in it.
use crate::show::numbers::write_number;
use format::ids::{HygieneId, ScopeId};
use reach::data::{ScopeEntry, ScopeKind};
use scope::tables::ExprScopes;
use std::fmt;

// A function and no `Display`, as the next: a part of this one text and of no other.
fn write_kind<W: fmt::Write>(kind: ScopeKind, f: &mut fmt::Formatter<W>) -> fmt::Result {
    match kind {
        ScopeKind::Plain => f.write_str("plain"),
        ScopeKind::Block { id, label } => {
            write!(f, "block {}", id.0)?;
            write_number(" label ", label.map(|label| label.0), f)
        }
        ScopeKind::Label(label) => write!(f, "label {}", label.0),
        ScopeKind::MacroDef(id) => write!(f, "macro {}", id.0),
    }
}

// Hygiene 0, code that no macro wrote, goes without saying.
fn write_entry<W: fmt::Write>(entry: ScopeEntry, f: &mut fmt::Formatter<W>) -> fmt::Result {
    write!(f, "name {}", entry.name.0)?;
    if entry.hygiene != HygieneId(0) {
        write!(f, " hygiene {}", entry.hygiene.0)?;
    }
    write!(f, " (binding {})", entry.binding.0)
}

// A scope of a tree.
#[derive(Clone, Copy)]
pub struct ScopeText<'a> {
    pub tree: &'a ExprScopes,
    pub id: ScopeId,
}

impl ScopeText<'_> {
    // The entries of the scope itself, in order of adding. They are asked by place: a tree shows no list
    // of them, since those of one scope do not lie together. The first place that has none ends them.
    fn entries<W: fmt::Write>(&self, f: &mut fmt::Formatter<W>) -> fmt::Result {
        for place in 0..self.tree.entry_count() {
            let Ok(Some(entry)) = self.tree.entry(self.id, place) else {
                break;
            };
            f.write_str(if place == 0 { " : " } else { ", " })?;
            write_entry(entry, f)?;
        }
        Ok(())
    }
}

impl fmt::Display for ScopeText<'_> {
    fn fmt<W: fmt::Write>(&self, f: &mut fmt::Formatter<W>) -> fmt::Result {
        let Ok(data) = self.tree.scope(self.id) else {
            return f.write_str("no such scope");
        };
        write!(f, "scope {} ", self.id.0)?;
        write_kind(data.kind, f)?;
        self.entries(f)
    }
}
