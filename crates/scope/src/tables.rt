// The scope tree of a body.
use builder::tables::Tables;

// A scope tree: its tables, as the visit of the body left them.
#[derive(Drop)]
pub struct ExprScopes {
    tables: Tables,
}

pub mod build;
pub mod queries;
