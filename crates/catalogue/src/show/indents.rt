// How far to the right a line begins.
use std::fmt;

// Two spaces for each level.
#[derive(Clone, Copy)]
pub struct Indent(pub u16);

impl fmt::Display for Indent {
    fn fmt<W: fmt::Write>(&self, f: &mut fmt::Formatter<W>) -> fmt::Result {
        for _ in 0..self.0 {
            f.write_str("  ")?;
        }
        Ok(())
    }
}
