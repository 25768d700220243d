// The rules of the format by kind of node.
ghost use Rattle.std.specs.Prelude.{◌≡◌, ℕ, ◌+◌, ◌*◌, ◌%◌, ◌<◌, ◌≤◌, true, false};
ghost use Rattle.format.specs.Kinds.{admits, arm_slot, binding_of, block_slot, closure_slot, count_suits, let_slot, named, pick, slot, slot_at, sort_number, sort_of, writes};

use crate::ids::BindingId;
use crate::kind::{NodeKind, Slot, Sort};

fn is_binding(bindings: u32, binding: BindingId) -> bool
    ensures in_the_sheet { result ≡ binding_of bindings binding }
{
    (1..=bindings).contains(&binding.0)
}

fn pick_slot(place: usize, first: Sort, rest: Sort) -> Slot
    ensures one_first_another_after { result ≡ pick place first rest }
{
    Slot::required(if place == 0 { first } else { rest })
}

fn block_slot(place: usize) -> Slot
    ensures tail_then_statements { result ≡ block_slot place }
{
    match place {
        0 => Slot::optional(Sort::Expression),
        _ => Slot::required(Sort::Statement),
    }
}

fn closure_slot(place: usize) -> Slot
    ensures body_then_types_and_patterns { result ≡ closure_slot place }
{
    match place {
        0 => Slot::required(Sort::Expression),
        _ if place % 2 == 1 => Slot::optional(Sort::Type),
        _ => Slot::required(Sort::Pattern),
    }
}

fn let_slot(place: usize) -> Slot
    ensures pattern_then_the_rest { result ≡ let_slot place }
{
    match place {
        0 => Slot::required(Sort::Pattern),
        1 => Slot::optional(Sort::Type),
        _ => Slot::optional(Sort::Expression),
    }
}

fn arm_slot(place: usize) -> Slot
    ensures pattern_guard_expression { result ≡ arm_slot place }
{
    match place {
        0 => Slot::required(Sort::Pattern),
        1 => Slot::optional(Sort::Expression),
        _ => Slot::required(Sort::Expression),
    }
}

impl NodeKind {
    // Field a as a sheet writes it.
    pub(crate) fn field_a(self) -> u32
        ensures is_written_so { result ≡ (writes self).a }
    {
        match self {
            NodeKind::Use { name, .. } => name.0,
            NodeKind::Block { id, .. } => id.map_or(0, |id| id.0),
            NodeKind::Loop { label } => label.map_or(0, |label| label.0),
            NodeKind::Bind { binding } => binding.0,
            NodeKind::MacroDef { id } => id.0,
            NodeKind::Body { self_binding } => self_binding.map_or(0, |binding| binding.0),
            _ => 0,
        }
    }

    // Field b as a sheet writes it.
    pub(crate) fn field_b(self) -> u32
        ensures is_written_so { result ≡ (writes self).b }
    {
        match self {
            NodeKind::Use { hygiene, .. } => hygiene.0,
            NodeKind::Block { label, .. } => label.map_or(0, |label| label.0),
            _ => 0,
        }
    }

    // Whether what the kind names is there, in a sheet of so many bindings.
    pub(crate) fn is_named(self, bindings: u32) -> bool
        ensures all_it_names_is_there { result ≡ named bindings self }
    {
        match self {
            NodeKind::Use { name, .. } => name.0 >= 1,
            NodeKind::Block { id, label } => id.is_none_or(|id| id.0 >= 1)
                && label.is_none_or(|label| label.0 >= 1),
            NodeKind::Loop { label } => label.is_none_or(|label| label.0 >= 1),
            NodeKind::Bind { binding } => is_binding(bindings, binding),
            NodeKind::MacroDef { id } => id.0 >= 1,
            NodeKind::Body { self_binding } => self_binding.is_none_or(|binding| is_binding(
                bindings, binding,
            )),
            _ => true,
        }
    }

    // Whether a node of the kind may have so many children, absent ones counted.
    pub(crate) fn count_fits(self, count: u16) -> bool
        ensures by_the_kind { result ≡ count_suits self count }
    {
        match self {
            NodeKind::Sequence | NodeKind::Patterns | NodeKind::ValuePattern | NodeKind::Types =>
                true,
            NodeKind::Loop { .. } | NodeKind::Const | NodeKind::ExprStatement => count == 1,
            NodeKind::And
            | NodeKind::Let
            | NodeKind::Repeat
            | NodeKind::Cast
            | NodeKind::ArrayType => count == 2,
            NodeKind::If | NodeKind::Arm => count == 3,
            NodeKind::LetStatement => count == 4,
            NodeKind::Block { .. } | NodeKind::Match | NodeKind::Body { .. } => count >= 1,
            NodeKind::Bind { .. } => count <= 1,
            NodeKind::Closure => count >= 2 && count % 2 == 0,
            _ => count == 0,
        }
    }

    pub fn sort(self) -> Sort
        ensures by_the_kind { result ≡ sort_of self }
    {
        match self {
            NodeKind::LeafPattern
            | NodeKind::Bind { .. }
            | NodeKind::Patterns
            | NodeKind::ValuePattern => Sort::Pattern,
            NodeKind::LeafType | NodeKind::Types | NodeKind::ArrayType => Sort::Type,
            NodeKind::LetStatement
            | NodeKind::ExprStatement
            | NodeKind::MacroDef { .. }
            | NodeKind::OtherItem => Sort::Statement,
            NodeKind::Arm => Sort::Arm,
            NodeKind::Body { .. } => Sort::Body,
            _ => Sort::Expression,
        }
    }

    // What the place, from 0, among the children of a node of the kind admits.
    pub fn slot(self, place: usize) -> Slot
        ensures by_the_kind { result ≡ slot_at self place }
    {
        match self {
            NodeKind::If if place == 2 => Slot::optional(Sort::Expression),
            NodeKind::Let => pick_slot(place, Sort::Pattern, Sort::Expression),
            NodeKind::Block { .. } => block_slot(place),
            NodeKind::Closure => closure_slot(place),
            NodeKind::Match => pick_slot(place, Sort::Expression, Sort::Arm),
            NodeKind::Cast => pick_slot(place, Sort::Expression, Sort::Type),
            NodeKind::ArrayType => pick_slot(place, Sort::Type, Sort::Expression),
            NodeKind::Body { .. } => pick_slot(place, Sort::Expression, Sort::Pattern),
            NodeKind::Bind { .. } | NodeKind::Patterns => Slot::required(Sort::Pattern),
            NodeKind::Types => Slot::required(Sort::Type),
            NodeKind::LetStatement => let_slot(place),
            NodeKind::Arm => arm_slot(place),
            _ => Slot::required(Sort::Expression),
        }
    }
}

impl Sort {
    // Tells it from the others. Not `From`: the call says which number.
    pub fn number(self) -> u8
        ensures tells_it_from_the_others { result ≡ sort_number self }
    {
        self as u8
    }
}

// Two functions and not one that takes the flag: a call then says which of the two the place asks.
impl Slot {
    fn required(sort: Sort) -> Slot
        ensures may_not_be_absent { result ≡ slot sort false }
    {
        Slot {
            sort,
            optional: false,
        }
    }

    fn optional(sort: Sort) -> Slot
        ensures may_be_absent { result ≡ slot sort true }
    {
        Slot {
            sort,
            optional: true,
        }
    }

    // Whether the place admits a child of a sort, or an absent one.
    pub fn admits(self, child: Option<Sort>) -> bool
        ensures its_sort_or_absent { result ≡ admits self child }
    {
        match child {
            Some(sort) => sort == self.sort,
            None => self.optional,
        }
    }
}
