// What a look-up goes over.
use scope::tables::ExprScopes;
use sheet::body::Body;

// A body with its scope tree, and the hosts of what stands around it.
#[derive(Drop)]
pub struct Resolver<'a, I, E> {
    pub items: &'a I,
    pub expansions: &'a E,
    pub body: &'a Body,
    pub tree: &'a ExprScopes,
}
