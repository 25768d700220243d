// What stands around a body, as text.
use sheet::node::Frame;
use std::fmt;

#[derive(Clone, Copy)]
pub struct FrameText(pub Frame);

impl fmt::Display for FrameText {
    fn fmt<W: fmt::Write>(&self, f: &mut fmt::Formatter<W>) -> fmt::Result {
        match self.0 {
            Frame::ImplGenerics(owner) => write!(f, "generics of impl {}", owner.0),
            Frame::Generics(owner) => write!(f, "generics of owner {}", owner.0),
            Frame::Block(block) => write!(f, "block {}", block.0),
        }
    }
}
