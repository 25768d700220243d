// Why a sheet is refused, and where.
ghost use Rattle.framing.specs.Broken.{FaultAt};
ghost use Rattle.framing.specs.Faults.{part_number, refusal_number};
ghost use Rattle.framing.specs.Plans.{format_of, least_of, most_of, width_of};
ghost use Rattle.framing.specs.Stages.{NoRecord};
ghost use Rattle.std.specs.Prelude.{◌≡◌, ◌<◌, ◌≤◌};

use crate::sheet_format::SheetFormat;

// What a sheet can be refused for, in the order in which it is tested.
#[derive(Clone, Copy, PartialEq, Eq)]
pub enum Refusal {
    // No version byte 1.
    Version = 1,
    // The length or the sections differ from the bytes.
    Length = 2,
    // A section's count is outside its limits.
    Count = 3,
    // A node of an unknown kind, or with a wrong child count, field or binding.
    Record = 4,
    // The nodes and their children make no tree of a body.
    Tree = 5,
    // A let that is no condition.
    LetPlace = 6,
    // A binding's name or an outer frame is bad.
    NameOrFrame = 7,
    // A record of an item sheet is bad.
    ItemRecord = 8,
    // The keys of an item sheet's records do not rise.
    KeyOrder = 9,
}

// Which part of a sheet a fault is in: the sheet as a whole, a section of a body sheet, or one of
// an item sheet. The whole is a part like the others, told as number 0, and not the absence of one.
#[derive(Clone, Copy, PartialEq, Eq)]
pub enum Part {
    Whole,
    Nodes,
    Children,
    Bindings,
    Frames,
    Items,
    Constants,
    Expansions,
}

// How many bytes a record of a section has, and how few and how many records the section may have.
#[derive(Clone, Copy)]
pub(crate) struct Limits {
    pub(crate) width: usize,
    pub(crate) least: usize,
    pub(crate) most: usize,
}

// A refusal with its part and its record, from 1. Where no record fits, the record is 0 and not absent:
// that is the number that is told, and by which the causes are ordered.
#[derive(Clone, Copy, PartialEq, Eq)]
pub struct Fault {
    pub refusal: Refusal,
    pub part: Part,
    pub record: u16,
}

impl Refusal {
    // Not `From`: the call says which number.
    pub fn number(self) -> u8
        ensures is_the_refusals_number { result ≡ refusal_number self }
    {
        self as u8
    }
}

impl Fault {
    // A fault of a part, where no record fits.
    pub fn of_part(refusal: Refusal, part: Part) -> Fault
        ensures is_at_no_record { NoRecord refusal part result }
    {
        Fault {
            refusal,
            part,
            record: 0,
        }
    }

    // A fault of the record at a place, from 0. Past the largest number that is told, it tells that.
    pub fn at_record(refusal: Refusal, part: Part, place: usize) -> Fault
        ensures tells_that_record { place < 65535 → FaultAt refusal part place result }
        ensures tells_the_largest_number_past_them { 65535 ≤ place → FaultAt refusal part 65534 result }
    {
        Fault {
            refusal,
            part,
            record: u16::try_from(place).map_or(u16::MAX, |place| place.saturating_add(1)),
        }
    }
}

impl Part {
    // The number of a section in its own sheet, from 1; 0 for the sheet as a whole. Sections of two
    // sheets share a number, so it is no discriminant.
    pub fn number(self) -> u8
        ensures is_the_parts_number { result ≡ part_number self }
    {
        match self {
            Part::Whole => 0,
            Part::Nodes | Part::Items => 1,
            Part::Children | Part::Constants => 2,
            Part::Bindings | Part::Expansions => 3,
            Part::Frames => 4,
        }
    }

    // The format of the sheets that have the section; the whole is no section, and goes with a body.
    pub(crate) fn format(self) -> SheetFormat
        ensures is_its_format { result ≡ format_of self }
    {
        match self {
            Part::Items | Part::Constants | Part::Expansions => SheetFormat::Items,
            _ => SheetFormat::Body,
        }
    }

    // What the section's format fixes.
    pub(crate) fn limits(self) -> Limits
        ensures is_the_sections_width { result.width ≡ width_of self }
        ensures is_the_sections_least { result.least ≡ least_of self }
        ensures is_the_sections_most { result.most ≡ most_of self }
    {
        let (width, least, most) = match self {
            Part::Whole => (0, 0, 0),
            Part::Nodes => (11, 1, 512),
            Part::Children => (2, 0, 1024),
            Part::Bindings => (8, 0, 256),
            Part::Frames => (5, 0, 16),
            Part::Items => (13, 0, 512),
            Part::Constants => (12, 0, 64),
            Part::Expansions => (16, 0, 256),
        };
        Limits { width, least, most }
    }
}
