// The item sheet's tables.
ghost use Rattle.items.specs.Steps.{Sorted};
ghost use Rattle.item_rows.specs.Rows.{Rooted};
ghost use Rattle.table.specs.Tables.{listed};

use item_rows::tables::Tables;

// Items by place and name, constant parameters by owner and name, expansions by context. In each
// table the keys rise, and no expansion is of the root, context 0.
#[derive(Drop)]
pub struct ItemSheet {
    tables: Tables,
    ghost sorted: { Sorted tables },
    ghost rooted: { Rooted (listed tables.expansions) },
}

pub mod hosts;
pub mod read;
