// A sheet taken apart into its sections, or the first of refusals 1 to 3.
ghost use Rattle.std.specs.Prelude.{◌≡◌, ℕ, ◌+◌, ◌*◌, ◌/◌, ◌<◌, ◌≤◌, MatchResult};
ghost use Rattle.framing.specs.Faults.{First, InOrderOfNumbers};
ghost use Rattle.framing.specs.Framing.{Framing};
ghost use Rattle.framing.specs.Sections.{Framed, FramedItems};

use crate::fault::{Fault, Part};
use crate::frame::{check_frame, records};
use crate::section::{ItemSections, Section, Sheet};
use crate::sheet_format::SheetFormat;

// The sections of a body sheet, each as a part of the caller's bytes. Not one function for both formats:
// each has sections of its own, by name.
pub fn split<'a>(bytes: &'a [u8]) -> Result<Sheet<'a>, Fault>
    ensures framed_or_the_first_cause { MatchResult result (Framed bytes.now) (First (Framing SheetFormat.Body bytes.now)) }
    ensures tells_faults_in_the_order_of_their_numbers { InOrderOfNumbers (Framing SheetFormat.Body bytes.now) }
{
    check_frame(SheetFormat::Body, bytes)?;
    Ok(Sheet {
        nodes: Section::Nodes(records(bytes, Part::Nodes)),
        children: Section::Children(records(bytes, Part::Children)),
        bindings: Section::Bindings(records(bytes, Part::Bindings)),
        frames: Section::Frames(records(bytes, Part::Frames)),
    })
}

// The sections of an item sheet, each as a part of the caller's bytes.
pub fn split_items<'a>(bytes: &'a [u8]) -> Result<ItemSections<'a>, Fault>
    ensures framed_or_the_first_cause { MatchResult result (FramedItems bytes.now) (First (Framing SheetFormat.Items bytes.now)) }
    ensures tells_faults_in_the_order_of_their_numbers { InOrderOfNumbers (Framing SheetFormat.Items bytes.now) }
{
    check_frame(SheetFormat::Items, bytes)?;
    Ok(ItemSections {
        items: Section::Items(records(bytes, Part::Items)),
        constants: Section::Constants(records(bytes, Part::Constants)),
        expansions: Section::Expansions(records(bytes, Part::Expansions)),
    })
}
