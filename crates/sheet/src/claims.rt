// Which child is the first to name each node.
ghost use Rattle.std.specs.Prelude.{◌≡◌, ℕ, ◌+◌, ◌*◌, ◌/◌, ◌<◌, ◌≤◌, length};
ghost use Rattle.sheet.specs.Drafts.{drawn};
ghost use Rattle.sheet.specs.Steps.{Claims};

use crate::draft::Draft;

impl<'a> Draft<'a> {
    // For each node number the place of the first child that names it, where one does. One table,
    // filled in one pass, tells both a repeated child and a node that is no child.
    pub(crate) fn first_claims(&self) -> [Option<u16>; 513]
        ensures the_first_of_each { Claims (drawn self.now).children (length (drawn self.now).children) result }
    {
        let mut first = [None; 513];
        // By place and not by chunks: children are read by place everywhere, by one function.
        for q in 0..self.child_count() {
            let c = self.child_number(q) as usize;
            if c < 513 && first[c].is_none() {
                first[c] = Some(q as u16);
            }
        }
        first
    }
}
