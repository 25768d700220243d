// The tables of an item sheet as the bytes write them, before the order of their records is looked
// at.
ghost use Rattle.std.specs.Prelude.{ℕ, ◌*◌, ◌/◌, ◌<◌, ◌≤◌, ◌≡◌, [], MatchResult};
ghost use Rattle.table.specs.Tables.{listed};
ghost use Rattle.framing.specs.Faults.{First};
ghost use Rattle.item_rows.specs.Causes.{Applies};
ghost use Rattle.item_rows.specs.Steps.{Filled};

use crate::rows::{ConstRow, ExpansionRow, ItemRow};
use framing::fault::Fault;
use framing::split::split_items;
use reader::record::Record;
use reader::section::read_records;
use table::Table;

#[derive(Drop)]
pub struct Tables {
    pub items: Table<ItemRow, 512>,
    pub consts: Table<ConstRow, 64>,
    pub expansions: Table<ExpansionRow, 256>,
}

impl Tables {
    // Tables without records.
    pub fn empty() -> Tables
        ensures has_no_items { listed result.items ≡ [] }
        ensures has_no_constants { listed result.consts ≡ [] }
        ensures has_no_expansions { listed result.expansions ≡ [] }
    {
        Tables {
            items: Table::new(ItemRow::BLANK),
            consts: Table::new(ConstRow::BLANK),
            expansions: Table::new(ExpansionRow::BLANK),
        }
    }

    // The records of a sheet, or the first of refusals 1, 2, 3 and 8.
    #[tactic(auto, using(crate::proofs::Load::frame_first, crate::proofs::Load::items_refused, crate::proofs::Load::consts_refused, crate::proofs::Load::expansions_refused, crate::proofs::Load::all_filled))]
    pub fn read(bytes: &[u8]) -> Result<Tables, Fault>
        ensures filled_or_the_first_cause { MatchResult result (Filled bytes.now) (First (Applies bytes.now)) }
    {
        let sheet = split_items(bytes)?;
        let items = read_records(sheet.items)?;
        let consts = read_records(sheet.constants)?;
        let expansions = read_records(sheet.expansions)?;
        Ok(Tables {
            items,
            consts,
            expansions,
        })
    }
}
