// Compares what the library says of stored sheets with what is stored beside each: NNN.body has
// the sheet, NNN.expect the expectation line by line, and INDEX.txt names them all.
#![tactic(auto)]

ghost use Rattle.std.specs.Prelude.{◌≡◌, ◌+◌, min, OnOk};

mod built;
mod compared;
mod counts;
mod entries;
mod expressions;
mod makers;
mod ranges;
mod report;
mod scopes;
mod subjects;
mod totals;

use crate::built::Built;
use crate::compared::Compared;
use crate::ranges::Ranges;
use crate::report::Report;
use crate::subjects::Subjects;
use crate::totals::Totals;
use scope::tables::ExprScopes;
use sheet::body::Body;
use std::{fs, io};
use words::first_word;

// The body and its scope tree against the lines of the expectation.
fn compare_body(report: &mut Report, body: &Body, expect: &str) -> io::Result<Compared> {
    let tree = ExprScopes::new_body(body);
    let built = Built { body, tree: &tree };
    let mut lines = expect.lines();
    counts::compare(report, built, lines.next().unwrap_or(""))?;
    let ranges = Ranges::read(report, lines.next().unwrap_or(""))?;
    let mut subjects = Subjects::new(ranges);
    for line in lines {
        subjects.compare(report, built, line)?;
    }
    subjects.finish(report, built)
}

// Compares one sheet, and tells how much of it was compared; a sheet that is refused has nothing.
fn compare_sheet(rt: &HostRuntime, report: &mut Report) -> io::Result<Compared> {
    let name = report.sheet();
    let bytes = fs::read(rt, format!(in rt.alloc(); "{name}.body")?)?;
    let expect = fs::read_to_string(rt, format!(in rt.alloc(); "{name}.expect")?)?;
    match Body::read(bytes.as_slice()) {
        Ok(body) => compare_body(report, &body, expect.as_str()),
        Err(fault) => {
            report.refused(fault)?;
            Ok(Compared::default())
        }
    }
}

// Compares the sheet that a line of the index names. One that cannot be read differs too.
fn compare_line(rt: &HostRuntime, line: &str, totals: &mut Totals) -> io::Result<()>
    ensures counts_the_sheet { OnOk result (totals.new.sheets.all ≡ min (totals.old.sheets.all + 1) 4294967295) }
{
    let mut report = Report::new(rt, first_word(line));
    match compare_sheet(rt, &mut report) {
        Ok(compared) => totals.count(compared, report.differences()),
        Err(error) => {
            report.failed(error)?;
            totals.count(Compared::default(), report.differences());
        }
    }
    Ok(())
}

fn compare_all(rt: &HostRuntime) -> io::Result<()> {
    let index = fs::read_to_string(rt, "INDEX.txt")?;
    let mut totals = Totals::new();
    for line in index.lines() {
        compare_line(rt, line, &mut totals)?;
    }
    println!(rt; "{totals}")
}

fn main(rt: HostRuntime) -> io::Result<()> {
    compare_all(&rt)
}
