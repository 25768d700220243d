// How many cases came out how.
ghost use Rattle.std.specs.Prelude.{◌≡◌, ◌+◌, ◌<◌, ◌≤◌, min, slice_index, slice_set};
ghost use Rattle.refusals.specs.Told.{row_of};
ghost use Rattle.refusals.specs.declared.outcome.Outcome.TheVariants.{Agrees, Differs, NoCase, NoSheet};

use crate::outcome::Outcome;
use framing::fault::Fault;
use std::fmt;

// A row for the accepted sheets, and one for each refusal.
const ROWS: usize = 10;

// Those of them that a body sheet can come to: refusals 8 and 9 are an item sheet's.
const BODY_ROWS: usize = 8;

#[derive(Drop)]
pub struct Tally {
    cases: u32,
    differ: u32,
    // The cases that agree, by the number of the refusal, of which there are so few that no map is needed.
    agree: [u32; ROWS],
    ghost no_more_than_all: { differ ≤ cases },
}

// The row of the summary that an answer counts in.
fn row(fault: Option<Fault>) -> usize
    ensures is_the_refusals_number { result ≡ row_of fault }
    ensures is_a_row { result < 10 }
{
    fault.map_or(0, |fault| usize::from(fault.refusal.number()))
}

impl Tally {
    // By hand: a struct with facts of its fields derives no `Default`.
    pub(crate) fn new() -> Tally
        ensures nothing_counted { (result.cases ≡ 0) × (result.differ ≡ 0) }
    {
        Tally {
            cases: 0,
            differ: 0,
            agree: [0; ROWS],
        }
    }

    // Counts one case, as agreeing under its number or as differing.
    pub(crate) fn count(&mut self, outcome: &Outcome)
        ensures counts_the_case { self.new.cases ≡ min (self.old.cases + 1) 4294967295 }
        ensures counts_what_agrees { elim outcome.now [ Agrees f ↦ self.new.agree ≡ slice_set self.old.agree (row_of f) (min (slice_index self.old.agree (row_of f) + 1) 4294967295) | Differs c g ↦ self.new.agree ≡ self.old.agree | NoSheet c e ↦ self.new.agree ≡ self.old.agree | NoCase l ↦ self.new.agree ≡ self.old.agree ] }
        ensures counts_what_differs { elim outcome.now [ Agrees f ↦ self.new.differ ≡ self.old.differ | Differs c g ↦ self.new.differ ≡ min (self.old.differ + 1) 4294967295 | NoSheet c e ↦ self.new.differ ≡ min (self.old.differ + 1) 4294967295 | NoCase l ↦ self.new.differ ≡ min (self.old.differ + 1) 4294967295 ] }
    {
        self.cases = self.cases.saturating_add(1);
        match outcome {
            Outcome::Agrees(fault) => {
                let row = row(*fault);
                self.agree[row] = self.agree[row].saturating_add(1);
            }
            _ => self.differ = self.differ.saturating_add(1),
        }
    }
}

impl fmt::Display for Tally {
    fn fmt<W: fmt::Write>(&self, f: &mut fmt::Formatter<W>) -> fmt::Result {
        for (number, count) in self.agree[..BODY_ROWS].iter().enumerate() {
            match number {
                0 => writeln!(f, "accepted {count}")?,
                _ => writeln!(f, "refused {number}: {count}")?,
            }
        }
        let cases = self.cases;
        let differ = self.differ;
        write!(f, "{cases} cases, {differ} differ")
    }
}
