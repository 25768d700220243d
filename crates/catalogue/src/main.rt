// Prints what body sheets hold, with their scope trees, or why they are refused: those of the named files, or an example.
#![tactic(auto)]

mod example;
mod listing;
mod show;
mod walk;

use crate::example::EXAMPLE;
use crate::listing::print_sheet;
use std::{env, fs, io};

// Prints one sheet after another. A file that cannot be read is told on standard error, and the
// files after it are still shown; that it failed is the answer in the end.
fn print_files(rt: &HostRuntime, names: env::Args) -> io::Result<()> {
    let mut answer = Ok(());
    for name in names {
        match fs::read(rt, name.as_str()) {
            Ok(bytes) => print_sheet(rt, name.as_str(), bytes.as_slice())?,
            Err(error) => {
                eprintln!(rt; "{name}: cannot be read: {error}")?;
                answer = Err(error);
            }
        }
    }
    answer
}

fn main(rt: HostRuntime) -> io::Result<()> {
    let mut words = env::args(&rt)?;
    // The first word is the program's own name.
    let _ = words.next();
    if words.len() == 0 {
        return print_sheet(&rt, "example", EXAMPLE);
    }
    print_files(&rt, words)
}
