// The children section.
ghost use Rattle.std.specs.Prelude.{◌≡◌, ℕ, ◌+◌, ◌*◌, ◌/◌, ◌<◌, ◌≤◌, map, length, slice_index};
ghost use Rattle.format.specs.Ids.{number_of};
ghost use Rattle.sheet.specs.Drafts.{drawn};
ghost use Rattle.table.specs.Tables.{listed};

use crate::draft::Draft;
use format::ids::NodeId;
use framing::bytes::u16_at;
use table::Table;

impl<'a> Draft<'a> {
    pub(crate) fn child_count(&self) -> usize
        ensures counts_them { result ≡ length (drawn self.now).children }
        ensures few { result ≤ 1024 }
    {
        self.children.len() / 2
    }

    // The number of the child at a place among all children, 0 for an absent one.
    pub(crate) fn child_number(&self, q: usize) -> u16
        requires is_there { q < length (drawn self.now).children }
        ensures as_written { result ≡ slice_index (drawn self.now).children q }
    {
        u16_at(self.children, 2 * q)
    }

    // The table of children, none of which has a number that no node has.
    pub(crate) fn child_table(&self) -> Table<Option<NodeId>, 1024>
        requires real { (q : ℕ) → q < length (drawn self.now).children → slice_index (drawn self.now).children q ≤ 512 }
        ensures all_as_written { map number_of (listed result) ≡ (drawn self.now).children }
    {
        let mut table: Table<Option<NodeId>, 1024> = Table::new(None);
        // By place and not by chunks: the tree rules read children by place, and by the same function.
        for q in 0..self.child_count() {
            table.push(NodeId::new(self.child_number(q)));
        }
        table
    }
}
