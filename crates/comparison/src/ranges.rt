// Whether the ported crate's range of entries of each scope has that scope's entries alone. Where a
// pattern holds an expression that makes scopes, a range takes in entries of those, and the two
// differ (docs/DIFFERENCES.md, 1).
ghost use Rattle.std.specs.Prelude.{◌≡◌, ◌<◌, IfSome};
ghost use Rattle.comparison.specs.Agreed.{Silent};
ghost use Rattle.comparison.specs.Told.{RangesTold};

use crate::report::Report;
use std::io;
use words::Words;

#[derive(Clone, Copy)]
pub enum Ranges {
    Same,
    Differ,
}

impl Ranges {
    // The line is `ranges same` or `ranges differ`.
    fn parse(line: &str) -> Option<Ranges>
        ensures is_what_the_line_says { IfSome result (λ g. RangesTold line.now g) }
    {
        let mut words = Words::new(line);
        words.word("ranges")?;
        let word = words.take()?;
        words.end()?;
        match word {
            "same" => Some(Ranges::Same),
            "differ" => Some(Ranges::Differ),
            _ => None,
        }
    }

    // What the line says; a line that says neither is a difference.
    pub(crate) fn read(report: &mut Report, line: &str) -> io::Result<Ranges> {
        match Ranges::parse(line) {
            Some(ranges) => Ok(ranges),
            None => {
                report.unreadable(line)?;
                Ok(Ranges::Same)
            }
        }
    }

    // A range differs exactly where an entry is taken.
    pub(crate) fn check(self, report: &mut Report, taken: u32) -> io::Result<()>
        ensures silent_only_where_it_is_so { Silent report.old.differences report.new.differences → elim self [ Ranges.Same ↦ taken ≡ 0 | Ranges.Differ ↦ 0 < taken ] }
    {
        match self {
            Ranges::Same => report.compare("entries taken", 0, taken as usize),
            Ranges::Differ => {
                if taken > 0 {
                    return Ok(());
                }
                report.differs("ranges differ", "no entry taken")
            }
        }
    }
}
