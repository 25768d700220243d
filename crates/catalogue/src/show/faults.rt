// A refusal as text: its number and its cause, and where in the sheet.
ghost use Rattle.std.specs.Prelude.{◌<◌, length};

use framing::fault::{Fault, Part, Refusal};
use std::fmt;

fn cause(refusal: Refusal) -> &'static str
    ensures is_never_empty { 0 < length result.now }
{
    match refusal {
        Refusal::Version => "the sheet does not begin with the version 1",
        Refusal::Length => "the length or the sections differ from the bytes",
        Refusal::Count => "a section has too few or too many records",
        Refusal::Record => "a node has an unknown kind, or a wrong child count, field or binding",
        Refusal::Tree => "the nodes and their children make no tree of a body",
        Refusal::LetPlace => "a let stands where no condition is",
        Refusal::NameOrFrame => "a binding's name or a frame is bad",
        Refusal::ItemRecord => "a record of an item sheet is bad",
        Refusal::KeyOrder => "the keys of an item sheet's records do not rise",
    }
}

fn section(part: Part) -> &'static str
    ensures is_never_empty { 0 < length result.now }
{
    match part {
        Part::Whole => "the sheet as a whole",
        Part::Nodes => "nodes",
        Part::Children => "children",
        Part::Bindings => "bindings",
        Part::Frames => "frames",
        Part::Items => "items",
        Part::Constants => "constants",
        Part::Expansions => "expansions",
    }
}

#[derive(Clone, Copy)]
pub struct FaultText(pub Fault);

impl fmt::Display for FaultText {
    fn fmt<W: fmt::Write>(&self, f: &mut fmt::Formatter<W>) -> fmt::Result {
        let Fault {
            refusal,
            part,
            record,
        } = self.0;
        let number = refusal.number();
        let cause = cause(refusal);
        let place = part.number();
        let section = section(part);
        write!(
            f,
            "refused {number} ({cause}) at section {place} ({section}), "
        )?;
        match record {
            0 => f.write_str("no record"),
            _ => write!(f, "record {record}"),
        }
    }
}
