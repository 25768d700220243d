// The differences of one sheet: each is printed where it is found, and counted.
ghost use Rattle.std.specs.Prelude.{◌≡◌, ◌+◌, min, ◌≢◌};

use framing::fault::Fault;
use std::{fmt, io};

// It stands beside the body and its tree in what is compared, and not with them in one value: that
// would hold it lent for as long as it lives, and each clause would speak of what it lends.
#[derive(Drop)]
pub struct Report<'r, 's> {
    rt: &'r HostRuntime,
    sheet: &'s str,
    differences: u32,
}

impl<'r, 's> Report<'r, 's> {
    pub(crate) fn new(rt: &'r HostRuntime, sheet: &'s str) -> Report<'r, 's>
        ensures no_difference_yet { result.differences ≡ 0 }
    {
        Report {
            rt,
            sheet,
            differences: 0,
        }
    }

    // The name of the sheet.
    pub(crate) fn sheet(&self) -> &'s str {
        self.sheet
    }

    pub(crate) fn differences(&self) -> u32
        ensures is_the_count { result ≡ self.now.differences }
    {
        self.differences
    }

    fn count(&mut self)
        ensures one_more { self.new.differences ≡ min (self.old.differences + 1) 4294967295 }
    {
        self.differences = self.differences.saturating_add(1);
    }

    // A number that should be what is expected.
    pub(crate) fn compare(&mut self, what: &str, expected: usize, got: usize) -> io::Result<()>
        ensures counts_none_where_equal { expected ≡ got → self.new.differences ≡ self.old.differences }
        ensures counts_one_elsewhere { (expected ≢ got) → self.new.differences ≡ min (self.old.differences + 1) 4294967295 }
    {
        if expected == got {
            return Ok(());
        }
        self.count();
        let sheet = self.sheet;
        println!(self.rt; "{sheet}: {what}: expected {expected}, got {got}")
    }

    // A thing that is not what is expected.
    pub(crate) fn differs<E: fmt::Display + Drop, G: fmt::Display + Drop>(
        &mut self,
        expected: E,
        got: G,
    ) -> io::Result<()>
        ensures counts_one { self.new.differences ≡ min (self.old.differences + 1) 4294967295 }
    {
        self.count();
        let sheet = self.sheet;
        println!(self.rt; "{sheet}: expected {expected}, got {got}")
    }

    // A sheet that should have been accepted.
    pub(crate) fn refused(&mut self, fault: Fault) -> io::Result<()>
        ensures counts_one { self.new.differences ≡ min (self.old.differences + 1) 4294967295 }
    {
        self.count();
        let sheet = self.sheet;
        let number = fault.refusal.number();
        let section = fault.part.number();
        let record = fault.record;
        println!(self.rt; "{sheet}: expected a body, got refusal {number} {section} {record}")
    }

    // A sheet or an expectation that cannot be read.
    pub(crate) fn failed(&mut self, error: io::Error) -> io::Result<()>
        ensures counts_one { self.new.differences ≡ min (self.old.differences + 1) 4294967295 }
    {
        self.count();
        let sheet = self.sheet;
        println!(self.rt; "{sheet}: cannot be compared: {error}")
    }

    // A line of the expectation that does not say what it should.
    pub(crate) fn unreadable(&mut self, line: &str) -> io::Result<()>
        ensures counts_one { self.new.differences ≡ min (self.old.differences + 1) 4294967295 }
    {
        self.count();
        let sheet = self.sheet;
        println!(self.rt; "{sheet}: no expectation: {line}")
    }
}
