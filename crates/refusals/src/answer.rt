// What the reader answers to a sheet, as a case states it.
ghost use Rattle.framing.specs.Faults.{First, NoneApply};
ghost use Rattle.refusals.specs.Told.{told};
ghost use Rattle.sheet.specs.Causes.{Applies};
ghost use Rattle.std.specs.Prelude.{◌≡◌, MatchOption};

use framing::fault::Fault;
use sheet::body::Body;
use std::fmt;

// The number of the refusal, its section, and the place of the record there; all 0 for a sheet
// that is accepted.
#[derive(Clone, Copy, PartialEq, Eq, Default)]
pub struct Answer {
    pub number: u16,
    pub section: u16,
    pub place: u16,
}

// Three zeros for no fault, else the fault's numbers.
impl From<Option<Fault>> for Answer {
    ghost from_gives = { λ fault answer. answer ≡ told fault };

    fn from(fault: Option<Fault>) -> Answer {
        fault.map_or(
            Answer::default(),
            |fault| Answer {
                number: u16::from(fault.refusal.number()),
                section: u16::from(fault.part.number()),
                place: fault.record,
            },
        )
    }
}

impl fmt::Display for Answer {
    fn fmt<W: fmt::Write>(&self, f: &mut fmt::Formatter<W>) -> fmt::Result {
        write!(f, "{} {} {}", self.number, self.section, self.place)
    }
}

// Why the reader refuses a sheet; none for one that it accepts.
pub(crate) fn fault_of(bytes: &[u8]) -> Option<Fault>
    ensures none_applies_or_the_first_cause { MatchOption result (NoneApply (Applies bytes.now)) (First (Applies bytes.now)) }
{
    Body::read(bytes).err()
}
