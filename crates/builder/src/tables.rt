// The tables of a scope tree.
ghost use Rattle.std.specs.Prelude.{◌≡◌, ℕ, ◌<◌, ◌≤◌, length};
ghost use Rattle.reach.specs.Blank.{Rooted, Sloping};
ghost use Rattle.reach.specs.Ranges.{Ranged};
ghost use Rattle.table.specs.Tables.{listed};

use format::ids::ScopeId;
use reach::data::{ScopeData, ScopeEntry};
use table::Table;

// The scopes, numbered from 1 in order of making. Each has a parent of a lower number, but the
// first, which has none.
#[derive(Drop)]
pub struct Scopes {
    table: Table<ScopeData, 1023>,
    ghost sloping: { Sloping (listed table) },
    ghost rooted: { Rooted (listed table) },
}

// The scope that each expression is recorded in, by its place: no memory is asked for, so it is no map.
#[derive(Drop)]
pub struct Recorded {
    pub records: [Option<ScopeId>; 512],
}

// The three tables, the entries of all scopes in order of adding. Every entry is of a scope that
// stands and lies within that scope's range.
#[derive(Drop)]
pub struct Tables {
    pub scopes: Scopes,
    pub entries: Table<ScopeEntry, 512>,
    pub recorded: Recorded,
    ghost ranged: { Ranged (listed scopes.table) (listed entries) },
}

pub mod build;
pub mod rows;
pub mod visit;
