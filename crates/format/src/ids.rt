// The numbers of a body sheet, each as a type of its own: a number of one kind is never taken for
// one of another.
ghost use Rattle.std.specs.Prelude.{◌<◌, ◌≤◌};

// A node's number, from 1 to the most that a sheet has.
#[derive(Clone, Copy, PartialEq, Eq)]
pub struct NodeId {
    pub raw: u16,
    ghost real: { (0 < raw) × (raw ≤ 512) },
}

// A scope's number, from 1 in order of making.
#[derive(Clone, Copy, PartialEq, Eq)]
pub struct ScopeId(pub u16);

// A binding's number, from 1 in the order of the sheet.
#[derive(Clone, Copy, PartialEq, Eq)]
pub struct BindingId(pub u32);

// A name as the archive numbers it: 1 is `self`, 2 is `Self`.
#[derive(Clone, Copy, PartialEq, Eq)]
pub struct Name(pub u32);

// The macro expansion that wrote a name; 0 is the root, code that no macro wrote.
#[derive(Clone, Copy, PartialEq, Eq)]
pub struct HygieneId(pub u32);

// A macro definition in the body.
#[derive(Clone, Copy, PartialEq, Eq)]
pub struct MacroId(pub u32);

// A block that may hold items.
#[derive(Clone, Copy, PartialEq, Eq)]
pub struct BlockId(pub u32);

// The label of a block or a loop.
#[derive(Clone, Copy, PartialEq, Eq)]
pub struct LabelId(pub u32);

// What has generic parameters: an impl, a function, or another owner.
#[derive(Clone, Copy, PartialEq, Eq)]
pub struct OwnerId(pub u32);
