// How a case came out.
ghost use Rattle.refusals.specs.Told.{told};
ghost use Rattle.refusals.specs.declared.outcome.Outcome.TheVariants.{Agrees, Differs, NoCase, NoSheet};
ghost use Rattle.std.specs.Prelude.{◌≡◌, true, false, ◌≢◌};

use crate::answer::{Answer, fault_of};
use crate::case::Case;
use framing::fault::Fault;
use std::{fmt, io};

#[derive(Drop)]
pub enum Outcome<'a> {
    // The reader answered what the case states: this fault, or none.
    Agrees(Option<Fault>),
    // It answered something else.
    Differs(Case<'a>, Answer),
    // The sheet of the case cannot be read.
    NoSheet(Case<'a>, io::Error),
    // The line states no case.
    NoCase(&'a str),
}

impl Outcome<'_> {
    pub(crate) fn agrees(&self) -> bool
        ensures in_one_way_only { elim self.now [ Agrees f ↦ result ≡ true | Differs c g ↦ result ≡ false | NoSheet c e ↦ result ≡ false | NoCase l ↦ result ≡ false ] }
    {
        matches!(self, Outcome::Agrees(_))
    }
}

// What the reader answers to the bytes, against what the case states.
pub(crate) fn compare<'a>(case: Case<'a>, bytes: &[u8]) -> Outcome<'a>
    ensures agrees_where_all_numbers_do { elim result [ Agrees f ↦ told f ≡ case.entry.expected | Differs c g ↦ (g ≢ case.entry.expected) | NoSheet c e ↦ ⊥ | NoCase l ↦ ⊥ ] }
{
    let fault = fault_of(bytes);
    let got = Answer::from(fault);
    if got == case.expected {
        Outcome::Agrees(fault)
    } else {
        Outcome::Differs(case, got)
    }
}

impl fmt::Display for Outcome<'_> {
    fn fmt<W: fmt::Write>(&self, f: &mut fmt::Formatter<W>) -> fmt::Result {
        match self {
            Outcome::Agrees(fault) => {
                let answer = Answer::from(*fault);
                write!(f, "as expected {answer}")
            }
            Outcome::Differs(case, got) => {
                let Case { name, expected } = *case;
                write!(f, "{name}: expected {expected}, got {got}")
            }
            Outcome::NoSheet(case, error) => {
                let Case { name, expected } = *case;
                write!(f, "{name}: expected {expected}, got no sheet: {error}")
            }
            Outcome::NoCase(line) => write!(f, "{line:?}: states no case"),
        }
    }
}
