// Numbers that may be absent, as text.
use std::fmt;

// The number after a text that goes with it, and nothing where there is none.
pub(crate) fn write_number<W: fmt::Write>(
    before: &str,
    number: Option<u32>,
    f: &mut fmt::Formatter<W>,
) -> fmt::Result {
    match number {
        Some(number) => write!(f, "{before}{number}"),
        None => Ok(()),
    }
}
