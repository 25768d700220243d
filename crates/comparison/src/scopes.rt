// The scopes of a body, each against its line.
ghost use Rattle.std.specs.Prelude.{◌≡◌, ◌+◌, min, IfSome, MatchOption};
ghost use Rattle.comparison.specs.Agreed.{Silent};
ghost use Rattle.comparison.specs.Makers.{maker_of};
ghost use Rattle.comparison.specs.Told.{ScopeTold};
ghost use Rattle.reach.specs.Blank.{parent_of};
ghost use Rattle.scope.specs.Queries.{IsScope, data_of};

use crate::makers::Maker;
use crate::report::Report;
use format::ids::ScopeId;
use scope::tables::ExprScopes;
use std::{fmt, io};
use words::Words;

// What a line tells of a scope. A parent of 0 is none, as in the line.
#[derive(Clone, Copy, PartialEq, Eq)]
pub struct ScopeLine {
    scope: usize,
    parent: usize,
    maker: Maker,
}

impl ScopeLine {
    // What the tree tells of a scope, if it has it.
    fn of(tree: &ExprScopes, id: ScopeId) -> Option<ScopeLine>
        ensures is_what_the_tree_has { MatchOption result (IsScope tree.now id → ⊥) (λ s. IsScope tree.now id × (s.scope ≡ id.0) × (s.parent ≡ parent_of (data_of tree.now id).parent) × (s.maker ≡ maker_of (data_of tree.now id).kind)) }
    {
        let data = tree.scope(id).ok()?;
        Some(ScopeLine {
            scope: id.0 as usize,
            parent: data.parent.map_or(0, |parent| parent.0 as usize),
            maker: Maker::from(data.kind),
        })
    }

    // The line is `scope N parent P` and what made the scope.
    fn parse(line: &str) -> Option<ScopeLine>
        ensures is_what_the_line_says { IfSome result (λ s. ScopeTold line.now s) }
    {
        let mut words = Words::new(line);
        let scope = words.number_after("scope")?;
        let parent = words.number_after("parent")?;
        let maker = Maker::parse(&mut words)?;
        words.end()?;
        Some(ScopeLine {
            scope,
            parent,
            maker,
        })
    }
}

impl fmt::Display for ScopeLine {
    fn fmt<W: fmt::Write>(&self, f: &mut fmt::Formatter<W>) -> fmt::Result {
        let ScopeLine {
            scope,
            parent,
            maker,
        } = *self;
        write!(f, "scope {scope} parent {parent} {maker}")
    }
}

// A scope against what is expected of it.
fn compare_scope(
    report: &mut Report,
    tree: &ExprScopes,
    id: ScopeId,
    expected: ScopeLine,
) -> io::Result<()>
    ensures silent_only_where_the_tree_has_it { Silent report.old.differences report.new.differences → IsScope tree.now id × (expected.scope ≡ id.0) × (expected.parent ≡ parent_of (data_of tree.now id).parent) × (expected.maker ≡ maker_of (data_of tree.now id).kind) }
{
    match ScopeLine::of(tree, id) {
        Some(got) => {
            if got == expected {
                return Ok(());
            }
            report.differs(expected, got)
        }
        None => report.differs(expected, "no such scope"),
    }
}

// The scopes whose lines have come: they come in order of number.
#[derive(Clone, Copy, Default)]
pub struct Scopes {
    seen: u16,
}

impl Scopes {
    pub(crate) fn seen(self) -> u16
        ensures is_the_count { result ≡ self.seen }
    {
        self.seen
    }

    // The next scope against its line.
    pub(crate) fn compare(
        &mut self,
        report: &mut Report,
        tree: &ExprScopes,
        line: &str,
    ) -> io::Result<()>
        ensures counts_the_line { self.new.seen ≡ min (self.old.seen + 1) 65535 }
    {
        self.seen = self.seen.saturating_add(1);
        let Some(expected) = ScopeLine::parse(line) else {
            return report.unreadable(line);
        };
        compare_scope(report, tree, ScopeId(self.seen), expected)
    }

    // After the last line: no scope is without one.
    pub(crate) fn finish(self, report: &mut Report, tree: &ExprScopes) -> io::Result<()> {
        report.compare(
            "scope lines",
            self.seen as usize,
            tree.scope_count() as usize,
        )
    }
}
