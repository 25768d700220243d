// The reader: from bytes to a body, or to the first fault.
ghost use Rattle.std.specs.Prelude.{ℕ, ◌+◌, ◌*◌, ◌/◌, ◌<◌, ◌≤◌, MatchResult};
ghost use Rattle.framing.specs.Faults.{First, InOrderOfNumbers};
ghost use Rattle.sheet.specs.Causes.{Applies};
ghost use Rattle.sheet.specs.Held.{Accepted};

use crate::body::Body;
use crate::draft::Draft;
use crate::nodes::read_nodes;
use framing::fault::Fault;
use framing::split::split;
use reader::section::read_records;

impl Body {
    // Reads a body sheet. Whatever the bytes are, the answer is a body or the first fault.
    pub fn read(bytes: &[u8]) -> Result<Body, Fault>
        ensures accepted_or_the_first_cause { MatchResult result (Accepted bytes.now) (First (Applies bytes.now)) }
        ensures tells_faults_in_the_order_of_their_numbers { InOrderOfNumbers (Applies bytes.now) }
    {
        let sheet = split(bytes)?;
        let nodes = read_nodes(sheet.nodes.bytes(), sheet.bindings.count() as u32)?;
        let draft = Draft {
            nodes: nodes.as_slice(),
            children: sheet.children.bytes(),
        };
        let tree = draft.check_tree()?;
        tree.check_lets()?;
        let bindings = read_records(sheet.bindings)?;
        let frames = read_records(sheet.frames)?;
        let children = draft.child_table();
        Ok(Body {
            nodes,
            children,
            bindings,
            frames,
        })
    }
}
