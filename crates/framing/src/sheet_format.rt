// The formats of sheets. They share one frame; each is fixed by its sections in their order.
ghost use Rattle.framing.specs.Plans.{plan_of};
ghost use Rattle.std.specs.Prelude.{◌≡◌};

use crate::fault::Part;

#[derive(Clone, Copy, PartialEq, Eq)]
pub enum SheetFormat {
    // A body's nodes, their children, its bindings, and the frames around it.
    Body,
    // Items, constants and macro expansions.
    Items,
}

static BODY_PLAN: [Part; 4] = [Part::Nodes, Part::Children, Part::Bindings, Part::Frames];

static ITEMS_PLAN: [Part; 3] = [Part::Items, Part::Constants, Part::Expansions];

impl SheetFormat {
    // The sections of a sheet, in their order.
    pub(crate) fn plan(self) -> &'static [Part]
        ensures is_its_plan { result.now ≡ plan_of self }
    {
        match self {
            SheetFormat::Body => &BODY_PLAN,
            SheetFormat::Items => &ITEMS_PLAN,
        }
    }
}
