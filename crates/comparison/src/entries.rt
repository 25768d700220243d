// The entries of each scope against its lines.
ghost use Rattle.std.specs.Prelude.{◌≡◌, ◌+◌, min, IfSome, None, MatchOption};
ghost use Rattle.comparison.specs.Agreed.{Silent};
ghost use Rattle.comparison.specs.Told.{EntryTold, owner_word};
ghost use Rattle.scope.specs.Queries.{IsScope, all_entries, data_of, entries_of};
ghost use Rattle.table.specs.Tables.{found};
ghost use Rattle.words.specs.Line.{Word, unread};

use crate::ranges::Ranges;
use crate::report::Report;
use format::ids::ScopeId;
use reach::data::ScopeEntry;
use scope::tables::ExprScopes;
use std::{fmt, io};
use words::Words;

// What a line tells of an entry.
#[derive(Clone, Copy, PartialEq, Eq)]
pub struct EntryLine {
    scope: usize,
    binding: usize,
    name: usize,
    hygiene: usize,
}

// Whose entry a line tells: the scope's own, or one of another scope that the ported crate's range
// takes in.
#[derive(Clone, Copy)]
enum Owner {
    Own,
    Taken,
}

impl Owner {
    fn parse(words: &mut Words) -> Option<Owner>
        ensures is_what_the_word_says { IfSome result (λ o. Word (unread words.old) (owner_word o) (unread words.new)) }
    {
        match words.take()? {
            "own" => Some(Owner::Own),
            "taken" => Some(Owner::Taken),
            _ => None,
        }
    }
}

impl From<ScopeEntry> for EntryLine {
    ghost from_gives = { λ entry line. (line.scope ≡ entry.scope.0) × (line.binding ≡ entry.binding.0) × (line.name ≡ entry.name.0) × (line.hygiene ≡ entry.hygiene.0) };

    fn from(entry: ScopeEntry) -> EntryLine {
        EntryLine {
            scope: entry.scope.0 as usize,
            binding: entry.binding.0 as usize,
            name: entry.name.0 as usize,
            hygiene: entry.hygiene.0 as usize,
        }
    }
}

impl EntryLine {
    // The line is `entry SCOPE binding B name N hygiene H`, and then whose it is.
    fn parse(line: &str) -> Option<(EntryLine, Owner)>
        ensures is_what_the_line_says { IfSome result (λ p. EntryTold line.now p.0 p.1) }
    {
        let mut words = Words::new(line);
        let scope = words.number_after("entry")?;
        let binding = words.number_after("binding")?;
        let name = words.number_after("name")?;
        let hygiene = words.number_after("hygiene")?;
        let owner = Owner::parse(&mut words)?;
        words.end()?;
        let entry = EntryLine {
            scope,
            binding,
            name,
            hygiene,
        };
        Some((entry, owner))
    }
}

impl fmt::Display for EntryLine {
    fn fmt<W: fmt::Write>(&self, f: &mut fmt::Formatter<W>) -> fmt::Result {
        let EntryLine {
            scope,
            binding,
            name,
            hygiene,
        } = *self;
        write!(
            f,
            "entry {scope} binding {binding} name {name} hygiene {hygiene}"
        )
    }
}

// The entry of a scope at a place against what is expected there.
fn compare_entry(
    report: &mut Report,
    tree: &ExprScopes,
    place: u16,
    expected: EntryLine,
) -> io::Result<()>
    ensures silent_only_where_the_tree_has_it { Silent report.old.differences report.new.differences → MatchOption (found (entries_of expected.scope (all_entries tree.now)) place) ⊥ (λ e. (expected.scope ≡ e.scope.0) × (expected.binding ≡ e.binding.0) × (expected.name ≡ e.name.0) × (expected.hygiene ≡ e.hygiene.0)) }
{
    let Ok(scope) = u16::try_from(expected.scope) else {
        return report.differs(expected, "no such scope");
    };
    let Ok(Some(entry)) = tree.entry(ScopeId(scope), place) else {
        return report.differs(expected, "no such entry");
    };
    let got = EntryLine::from(entry);
    if got == expected {
        return Ok(());
    }
    report.differs(expected, got)
}

// The lines of one scope that have come: how many, and how many of them are of its own entries.
#[derive(Clone, Copy, Default)]
struct Run {
    lines: u16,
    own: u16,
}

impl Run {
    // After the last line of a scope: it has no more entries than have come.
    fn finish_entries(
        self,
        report: &mut Report,
        tree: &ExprScopes,
        scope: ScopeId,
    ) -> io::Result<()>
        ensures silent_only_where_no_entry_is_left { Silent report.old.differences report.new.differences → IsScope tree.now scope × (found (entries_of scope.0 (all_entries tree.now)) self.own ≡ None) }
    {
        let number = scope.0;
        match tree.entry(scope, self.own) {
            Ok(Some(entry)) => report.differs("no more entries", EntryLine::from(entry)),
            Ok(None) => Ok(()),
            Err(_) => report.differs(format_args!("scope {number}"), "no such scope"),
        }
    }

    // The range of the scope has as many places as lines have come.
    fn finish_range(self, report: &mut Report, tree: &ExprScopes, scope: ScopeId) -> io::Result<()>
        ensures silent_only_where_the_range_is_as_long { Silent report.old.differences report.new.differences → IsScope tree.now scope → (data_of tree.now scope).start + self.lines ≡ (data_of tree.now scope).«end» }
    {
        let Ok(data) = tree.scope(scope) else {
            return Ok(());
        };
        let number = scope.0;
        let expected = data.start as usize + self.lines as usize;
        let got = data.end as usize;
        if expected == got {
            return Ok(());
        }
        report.differs(
            format_args!("entries of scope {number} to end at {expected}"),
            format_args!("their end at {got}"),
        )
    }

    fn finish(
        self,
        report: &mut Report,
        tree: &ExprScopes,
        ranges: Ranges,
        scope: ScopeId,
    ) -> io::Result<()> {
        self.finish_entries(report, tree, scope)?;
        match ranges {
            Ranges::Same => self.finish_range(report, tree, scope),
            Ranges::Differ => Ok(()),
        }
    }
}

// The entries whose lines have come: they come scope by scope, in order of number, and in a scope in
// order of adding.
#[derive(Clone, Copy)]
pub struct Entries {
    ranges: Ranges,
    scope: u16,
    run: Run,
    own: u32,
    taken: u32,
}

impl Entries {
    pub(crate) fn new(ranges: Ranges) -> Entries
        ensures none_seen { (result.own ≡ 0) × (result.taken ≡ 0) }
    {
        Entries {
            ranges,
            scope: 1,
            run: Run::default(),
            own: 0,
            taken: 0,
        }
    }

    // How many entries were compared.
    pub(crate) fn own(self) -> u32
        ensures is_the_count { result ≡ self.own }
    {
        self.own
    }

    // How many lines tell of an entry that is taken from another scope.
    pub(crate) fn taken(self) -> u32
        ensures is_the_count { result ≡ self.taken }
    {
        self.taken
    }

    // Goes on to the lines of a scope; those before it have had all theirs.
    fn go_to(&mut self, report: &mut Report, tree: &ExprScopes, scope: u16) -> io::Result<()> {
        for passed in (self.scope..scope).map(ScopeId) {
            self.run.finish(report, tree, self.ranges, passed)?;
            self.run = Run::default();
        }
        self.scope = scope;
        Ok(())
    }

    // The next entry against its line. One that is taken is counted, and not compared.
    fn compare_line(
        &mut self,
        report: &mut Report,
        tree: &ExprScopes,
        expected: EntryLine,
        owner: Owner,
    ) -> io::Result<()> {
        self.run.lines = self.run.lines.saturating_add(1);
        match owner {
            Owner::Taken => {
                self.taken = self.taken.saturating_add(1);
                Ok(())
            }
            Owner::Own => {
                let place = self.run.own;
                self.run.own = place.saturating_add(1);
                self.own = self.own.saturating_add(1);
                compare_entry(report, tree, place, expected)
            }
        }
    }

    pub(crate) fn compare(
        &mut self,
        report: &mut Report,
        tree: &ExprScopes,
        line: &str,
    ) -> io::Result<()> {
        let Some((expected, owner)) = EntryLine::parse(line) else {
            return report.unreadable(line);
        };
        let Ok(scope) = u16::try_from(expected.scope) else {
            return report.differs(expected, "no such scope");
        };
        // Lines that go back to an earlier scope are out of order.
        if scope < self.scope {
            return report.unreadable(line);
        }
        self.go_to(report, tree, scope)?;
        self.compare_line(report, tree, expected, owner)
    }

    // After the last line.
    pub(crate) fn finish(&mut self, report: &mut Report, tree: &ExprScopes) -> io::Result<()> {
        self.go_to(report, tree, tree.scope_count().saturating_add(1))?;
        self.ranges.check(report, self.taken)
    }
}
