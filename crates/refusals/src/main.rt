// Replays the stored sheets: what the reader answers to each is compared with what its case states.
#![tactic(auto)]

mod answer;
mod case;
mod outcome;
mod tally;

use crate::case::Case;
use crate::outcome::{Outcome, compare};
use crate::tally::Tally;
use std::{fs, io};

// A line that states no case and a sheet that cannot be read come out as differences too.
fn replay<'a>(rt: &HostRuntime, line: &'a str) -> io::Result<Outcome<'a>> {
    let Some(case) = Case::parse(line) else {
        return Ok(Outcome::NoCase(line));
    };
    let name = case.name;
    let path = format!(in rt.alloc(); "{name}.sheet")?;
    match fs::read(rt, path) {
        Ok(bytes) => Ok(compare(case, bytes.as_slice())),
        Err(error) => Ok(Outcome::NoSheet(case, error)),
    }
}

fn replay_all(rt: &HostRuntime) -> io::Result<()> {
    let cases = fs::read_to_string(rt, "cases.txt")?;
    let mut tally = Tally::new();
    for line in cases.lines() {
        let outcome = replay(rt, line)?;
        tally.count(&outcome);
        if !outcome.agrees() {
            println!(rt; "{outcome}")?;
        }
    }
    println!(rt; "{tally}")
}

fn main(rt: HostRuntime) -> io::Result<()> {
    replay_all(&rt)
}
