// The sections of a sheet, each handed out as a part of the caller's bytes.
ghost use Rattle.std.specs.Prelude.{◌≡◌, ℕ, ◌+◌, ◌*◌, ◌/◌, ◌<◌, ◌≤◌, length};
ghost use Rattle.framing.specs.Plans.{width_of};
ghost use Rattle.framing.specs.Sections.{bytes_of, part_of, records_of};

use crate::fault::Part;

// A section, told by its kind, with the bytes of its records: of a body sheet the first four, of an
// item sheet the last three. The project wants a case for each, so that whoever takes a sheet apart
// cannot hand over one section for another.
#[derive(Clone, Copy)]
pub enum Section<'a> {
    Nodes(&'a [u8]),
    Children(&'a [u8]),
    Bindings(&'a [u8]),
    Frames(&'a [u8]),
    Items(&'a [u8]),
    Constants(&'a [u8]),
    Expansions(&'a [u8]),
}

// The sections of a body sheet.
#[derive(Clone, Copy)]
pub struct Sheet<'a> {
    pub nodes: Section<'a>,
    pub children: Section<'a>,
    pub bindings: Section<'a>,
    pub frames: Section<'a>,
}

// The sections of an item sheet.
#[derive(Clone, Copy)]
pub struct ItemSections<'a> {
    pub items: Section<'a>,
    pub constants: Section<'a>,
    pub expansions: Section<'a>,
}

impl<'a> Section<'a> {
    pub fn bytes(&self) -> &'a [u8]
        ensures are_its_records { result.now ≡ bytes_of self.now }
    {
        match *self {
            Section::Nodes(b) => b,
            Section::Children(b) => b,
            Section::Bindings(b) => b,
            Section::Frames(b) => b,
            Section::Items(b) => b,
            Section::Constants(b) => b,
            Section::Expansions(b) => b,
        }
    }

    fn part(&self) -> Part
        ensures is_its_part { result ≡ part_of self.now }
        ensures has_records { 0 < width_of result }
    {
        match *self {
            Section::Nodes(_) => Part::Nodes,
            Section::Children(_) => Part::Children,
            Section::Bindings(_) => Part::Bindings,
            Section::Frames(_) => Part::Frames,
            Section::Items(_) => Part::Items,
            Section::Constants(_) => Part::Constants,
            Section::Expansions(_) => Part::Expansions,
        }
    }

    // How many records it has.
    pub fn count(&self) -> usize
        ensures is_its_count { result ≡ records_of self.now }
    {
        self.bytes().len() / self.part().limits().width
    }
}
