// The nodes section: refusal 4.
ghost use Rattle.std.specs.Prelude.{◌≡◌, ℕ, ◌+◌, ◌*◌, ◌/◌, ◌<◌, ◌≤◌, length, MatchResult};
ghost use Rattle.format.specs.Kinds.{Says};
ghost use Rattle.sheet.specs.Records.{Said, begins, kind_said, node_from, record_at};
ghost use Rattle.framing.specs.Broken.{FaultAt, FirstBroken};
ghost use Rattle.table.specs.Tables.{listed, tabulated};

use crate::node::{BLANK_NODE, Node};
use format::kind::NodeRecord;
use framing::bytes::{u16_at, u32_at};
use framing::fault::{Fault, Part, Refusal};
use table::Table;

// The record of the node at a place, from 0.
fn node_record(nodes: &[u8], i: usize) -> NodeRecord
    requires is_there { 11 * i + 11 ≤ length nodes.now }
    ensures as_written { result ≡ record_at nodes.now i }
{
    let at = 11 * i;
    NodeRecord {
        code: nodes[at],
        count: u16_at(nodes, at + 1),
        a: u32_at(nodes, at + 3),
        b: u32_at(nodes, at + 7),
    }
}

// One node, or refusal 4 at its record.
fn read_node(written: NodeRecord, bindings: u32, first: u32, i: usize) -> Result<Node, Fault>
    requires few { i < 512 }
    ensures says_a_kind_or_refused { MatchResult result
        (λ n. Says bindings written n.kind × (n.first ≡ first) × (n.count ≡ written.count))
        (λ f. FaultAt Refusal.Record Part.Nodes i f × (Said bindings written → ⊥)) }
{
    let kind = written
        .kind(bindings)
        .ok_or(Fault::at_record(Refusal::Record, Part::Nodes, i))?;
    Ok(Node {
        kind,
        first,
        count: written.count,
    })
}

// The node table, or refusal 4 at the first node that says no kind.
pub(crate) fn read_nodes(nodes: &[u8], bindings: u32) -> Result<Table<Node, 512>, Fault>
    requires few { length nodes.now / 11 ≤ 512 }
    ensures all_read_or_the_first_refused { MatchResult result
        (λ t. (listed t ≡ tabulated (node_from nodes.now) (length nodes.now / 11))
        × ((k : ℕ) → k < length nodes.now / 11 → Said bindings (record_at nodes.now k)))
        (FirstBroken (λ k. Said bindings (record_at nodes.now k)) (length nodes.now / 11) Refusal.Record Part.Nodes) }
{
    let mut table: Table<Node, 512> = Table::new(BLANK_NODE);
    let mut first = 0u32;
    // By place and not by chunks: what is written and what is refused are both told by place.
    for i in 0..nodes.len() / 11 {
        let node = read_node(node_record(nodes, i), bindings, first, i)?;
        first += node.count as u32;
        table.push(node);
    }
    Ok(table)
}
