// The scope that each expression is recorded in, against its line.
ghost use Rattle.std.specs.Prelude.{◌≡◌, ◌-◌, true, false, IfSome, Some, None, MatchOption};
ghost use Rattle.comparison.specs.Agreed.{Silent};
ghost use Rattle.comparison.specs.Told.{ExprTold};
ghost use Rattle.reach.specs.Tables.{is_expr};
ghost use Rattle.scope.specs.Queries.{recorded_at};
ghost use Rattle.sheet.specs.Held.{nodes_of};
ghost use Rattle.table.specs.Tables.{found};

use crate::built::Built;
use crate::report::Report;
use format::ids::NodeId;
use format::kind::Sort;
use std::{fmt, io};
use words::Words;

// One past the largest number of a node.
const PAST_NODES: u16 = 513;

// What a line tells of an expression.
#[derive(Clone, Copy, PartialEq, Eq)]
pub struct ExprLine {
    node: usize,
    scope: usize,
}

impl ExprLine {
    // What the tree tells of a node, if it records a scope for it.
    fn of(built: Built, id: NodeId) -> Option<ExprLine>
        ensures is_what_the_tree_has { MatchOption result
            (recorded_at built.entry.tree.now id ≡ None)
            (λ e. (e.node ≡ id.raw) × (recorded_at built.entry.tree.now id ≡ Some (record { 0 = e.scope }))) }
    {
        let scope = built.tree.scope_for(id).ok()?;
        Some(ExprLine {
            node: id.number() as usize,
            scope: scope.0 as usize,
        })
    }

    // The line is `expr NODE scope N`.
    fn parse(line: &str) -> Option<ExprLine>
        ensures is_what_the_line_says { IfSome result (λ e. ExprTold line.now e) }
    {
        let mut words = Words::new(line);
        let node = words.number_after("expr")?;
        let scope = words.number_after("scope")?;
        words.end()?;
        Some(ExprLine { node, scope })
    }
}

impl fmt::Display for ExprLine {
    fn fmt<W: fmt::Write>(&self, f: &mut fmt::Formatter<W>) -> fmt::Result {
        let ExprLine { node, scope } = *self;
        write!(f, "expr {node} scope {scope}")
    }
}

fn is_expression(built: Built, id: NodeId) -> bool
    ensures by_its_kind { MatchOption (found (nodes_of built.entry.body.now) (id.raw - 1)) (result ≡ false) (λ n. result ≡ is_expr n.kind) }
{
    built
        .body
        .node(id)
        .is_some_and(|node| node.kind.sort() == Sort::Expression)
}

// A node that has a line: it is an expression, and recorded in the scope that the line says.
fn compare_node(report: &mut Report, built: Built, id: NodeId, expected: ExprLine) -> io::Result<()>
    ensures silent_only_where_the_tree_has_it { Silent report.old.differences report.new.differences → (expected.node ≡ id.raw) × (recorded_at built.entry.tree.now id ≡ Some (record { 0 = expected.scope })) }
    ensures silent_only_at_an_expression { Silent report.old.differences report.new.differences → MatchOption (found (nodes_of built.entry.body.now) (id.raw - 1)) ⊥ (λ n. is_expr n.kind ≡ true) }
{
    if !is_expression(built, id) {
        return report.differs(expected, "no expression");
    }
    match ExprLine::of(built, id) {
        Some(got) => {
            if got == expected {
                return Ok(());
            }
            report.differs(expected, got)
        }
        None => report.differs(expected, "no scope"),
    }
}

// A node that has no line: it is no expression, and no scope is recorded for it.
fn compare_silent(report: &mut Report, built: Built, id: NodeId) -> io::Result<()>
    ensures silent_only_where_none_is_recorded { Silent report.old.differences report.new.differences → recorded_at built.entry.tree.now id ≡ None }
    ensures silent_only_at_no_expression { Silent report.old.differences report.new.differences → IfSome (found (nodes_of built.entry.body.now) (id.raw - 1)) (λ n. is_expr n.kind ≡ false) }
{
    let number = id.number();
    if is_expression(built, id) {
        report.differs(
            format_args!("no expression {number}"),
            format_args!("expression {number}"),
        )?;
    }
    match ExprLine::of(built, id) {
        Some(got) => report.differs(format_args!("no scope for node {number}"), got),
        None => Ok(()),
    }
}

// The expressions whose lines have come, and the node from which on none has: they come in order of
// number.
#[derive(Clone, Copy)]
pub struct Expressions {
    seen: u32,
    next: u16,
}

impl Expressions {
    pub(crate) fn new() -> Expressions
        ensures none_seen { result.seen ≡ 0 }
    {
        Expressions { seen: 0, next: 1 }
    }

    pub(crate) fn seen(self) -> u32
        ensures is_the_count { result ≡ self.seen }
    {
        self.seen
    }

    // Goes on to a node; those that are passed have no line.
    fn go_to(&mut self, report: &mut Report, built: Built, node: u16) -> io::Result<()> {
        for id in (self.next..node).filter_map(NodeId::new) {
            compare_silent(report, built, id)?;
        }
        self.next = node;
        Ok(())
    }

    pub(crate) fn compare(
        &mut self,
        report: &mut Report,
        built: Built,
        line: &str,
    ) -> io::Result<()> {
        let Some(expected) = ExprLine::parse(line) else {
            return report.unreadable(line);
        };
        let Some(id) = u16::try_from(expected.node).ok().and_then(NodeId::new) else {
            return report.differs(expected, "no such node");
        };
        let number = id.number();
        // A second line of a node, or one of an earlier node, is out of order.
        if number < self.next {
            return report.unreadable(line);
        }
        self.go_to(report, built, number)?;
        self.next = number.saturating_add(1);
        self.seen = self.seen.saturating_add(1);
        compare_node(report, built, id, expected)
    }

    // After the last line: the nodes that are left, and the numbers that no node of the body has.
    pub(crate) fn finish(&mut self, report: &mut Report, built: Built) -> io::Result<()> {
        self.go_to(report, built, PAST_NODES)
    }
}
