// What is compared with an expectation.
use scope::tables::ExprScopes;
use sheet::body::Body;

// A body, and the scope tree that is built of it.
#[derive(Clone, Copy)]
pub struct Built<'a> {
    pub body: &'a Body,
    pub tree: &'a ExprScopes,
}
