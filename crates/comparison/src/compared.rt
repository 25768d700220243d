// How much of one sheet was compared.
// A sheet that is refused or cannot be read has nothing compared: all is 0.
#[derive(Clone, Copy, Default)]
pub struct Compared {
    pub nodes: usize,
    pub scopes: u16,
    pub entries: u32,
    // Entries that the ported crate's ranges take from another scope: counted, and not compared.
    pub taken: u32,
    pub expressions: u32,
}
