// Node numbers as they are read and told.
ghost use Rattle.format.specs.Ids.{node_from, number_of};
ghost use Rattle.std.specs.Prelude.{◌≡◌, ◌-◌};

use crate::ids::NodeId;

impl NodeId {
    // The node of a number as a sheet writes it; none for 0 and for what no sheet has.
    pub fn new(number: u16) -> Option<NodeId>
        ensures names_that_number { number_of result ≡ node_from number }
    {
        // Tried with `then`: its closure does not know that the number is one that a node has.
        if (1..=512).contains(&number) {
            Some(NodeId { raw: number })
        } else {
            None
        }
    }

    // Its place from 0 among the nodes of a body.
    pub fn index(self) -> usize
        ensures is_one_less { result ≡ self.raw - 1 }
    {
        usize::from(self.raw) - 1
    }

    pub fn number(self) -> u16
        ensures is_its_number { result ≡ self.raw }
    {
        self.raw
    }
}
