// The lines of an expectation after the first two, each handed to the subject that it tells of.
use crate::built::Built;
use crate::compared::Compared;
use crate::entries::Entries;
use crate::expressions::Expressions;
use crate::ranges::Ranges;
use crate::report::Report;
use crate::scopes::Scopes;
use std::io;
use words::first_word;

#[derive(Clone, Copy)]
pub struct Subjects {
    scopes: Scopes,
    entries: Entries,
    expressions: Expressions,
}

impl Subjects {
    pub(crate) fn new(ranges: Ranges) -> Subjects {
        Subjects {
            scopes: Scopes::default(),
            entries: Entries::new(ranges),
            expressions: Expressions::new(),
        }
    }

    pub(crate) fn compare(
        &mut self,
        report: &mut Report,
        built: Built,
        line: &str,
    ) -> io::Result<()> {
        match first_word(line) {
            "scope" => self.scopes.compare(report, built.tree, line),
            "entry" => self.entries.compare(report, built.tree, line),
            "expr" => self.expressions.compare(report, built, line),
            // Compared later.
            "use" | "ownuse" | "look" | "ownlook" | "enter" | "tally" | "propose" => Ok(()),
            _ => report.unreadable(line),
        }
    }

    // After the last line: what no line tells of, and how much was compared.
    pub(crate) fn finish(&mut self, report: &mut Report, built: Built) -> io::Result<Compared> {
        self.scopes.finish(report, built.tree)?;
        self.entries.finish(report, built.tree)?;
        self.expressions.finish(report, built)?;
        Ok(Compared {
            nodes: built.body.node_count(),
            scopes: self.scopes.seen(),
            entries: self.entries.own(),
            taken: self.entries.taken(),
            expressions: self.expressions.seen(),
        })
    }
}
