// The reader: from bytes to an item sheet, or to the first fault.
ghost use Rattle.std.specs.Prelude.{ℕ, ◌<◌, ◌≤◌, MatchResult};
ghost use Rattle.framing.specs.Faults.{First};
ghost use Rattle.items.specs.Accepted.{Accepted};
ghost use Rattle.item_rows.specs.Causes.{Applies};

use crate::order::check_sorted;
use crate::sheet::ItemSheet;
use framing::fault::Fault;
use item_rows::tables::Tables;

impl ItemSheet {
    // Reads an item sheet. Whatever the bytes are, the answer is a sheet or the first fault.
    #[tactic(auto, using(crate::proofs::Load::none_apply, crate::proofs::Load::rooted, crate::proofs::Load::unsorted_first))]
    pub fn read(bytes: &[u8]) -> Result<ItemSheet, Fault>
        ensures accepted_or_the_first_cause { MatchResult result (Accepted bytes.now) (First (Applies bytes.now)) }
    {
        let tables = Tables::read(bytes)?;
        check_sorted(&tables)?;
        Ok(ItemSheet { tables })
    }
}
