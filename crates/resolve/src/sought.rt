// What is looked up.
use format::ids::{BindingId, HygieneId, Name, ScopeId};

// A name as it is written at a place: the scope that the look-up begins in, or none for outside the
// body, the name, and the expansion that wrote it.
#[derive(Clone, Copy, PartialEq, Eq)]
pub struct Sought {
    pub from: Option<ScopeId>,
    pub name: Name,
    pub hygiene: HygieneId,
}

// A binding with a name that it does not have, or not yet.
#[derive(Clone, Copy, PartialEq, Eq)]
pub struct Rename {
    pub binding: BindingId,
    pub name: Name,
}
