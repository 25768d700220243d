// How many nodes, bindings and frames a sheet has, and how many scopes and entries its scope tree.
ghost use Rattle.comparison.specs.Agreed.{Silent};
ghost use Rattle.comparison.specs.Counted.{Counted};
ghost use Rattle.scope.specs.Queries.{all_entries, all_scopes};
ghost use Rattle.sheet.specs.Held.{bindings_of, frames_of, nodes_of};
ghost use Rattle.std.specs.Prelude.{◌≡◌, length, IfSome, OnOk};

use crate::built::Built;
use crate::report::Report;
use std::io;
use words::Words;

#[derive(Clone, Copy)]
struct Counts {
    nodes: usize,
    bindings: usize,
    frames: usize,
    scopes: usize,
    entries: usize,
}

// The records of the body, and what its tree has.
impl From<Built<'_>> for Counts {
    ghost from_gives = { λ built counts. (counts.nodes ≡ length (nodes_of built.body.now)) × (counts.bindings ≡ length (bindings_of built.body.now)) × (counts.frames ≡ length (frames_of built.body.now)) × (counts.scopes ≡ length (all_scopes built.tree.now)) × (counts.entries ≡ length (all_entries built.tree.now)) };

    fn from(built: Built<'_>) -> Counts {
        Counts {
            nodes: built.body.node_count(),
            bindings: built.body.binding_count(),
            frames: built.body.frame_count(),
            scopes: built.tree.scope_count() as usize,
            entries: built.tree.entry_count() as usize,
        }
    }
}

impl Counts {
    // An Option and no `FromStr`, here and at the other lines: one that says none has no error to tell.
    // The line is `sheet nodes N bindings B frames F scopes S entries E`.
    fn parse(line: &str) -> Option<Counts>
        ensures is_what_the_line_says { IfSome result (λ c. Counted line.now c) }
    {
        let mut words = Words::new(line);
        words.word("sheet")?;
        let nodes = words.number_after("nodes")?;
        let bindings = words.number_after("bindings")?;
        let frames = words.number_after("frames")?;
        let scopes = words.number_after("scopes")?;
        let entries = words.number_after("entries")?;
        words.end()?;
        Some(Counts {
            nodes,
            bindings,
            frames,
            scopes,
            entries,
        })
    }
}

fn compare_counts(report: &mut Report, expected: Counts, got: Counts) -> io::Result<()>
    ensures silent_only_where_equal { OnOk result ((Silent report.old.differences report.new.differences → expected ≡ got)) }
{
    report.compare("nodes", expected.nodes, got.nodes)?;
    report.compare("bindings", expected.bindings, got.bindings)?;
    report.compare("frames", expected.frames, got.frames)?;
    report.compare("scopes", expected.scopes, got.scopes)?;
    report.compare("entries", expected.entries, got.entries)
}

pub(crate) fn compare(report: &mut Report, built: Built, line: &str) -> io::Result<()> {
    let Some(expected) = Counts::parse(line) else {
        return report.unreadable(line);
    };
    compare_counts(report, expected, Counts::from(built))
}
