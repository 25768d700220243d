// What made a scope, as a line tells it.
ghost use Rattle.comparison.specs.Makers.{maker_of};
ghost use Rattle.comparison.specs.Told.{MakerTold};
ghost use Rattle.std.specs.Prelude.{◌≡◌, IfSome};
ghost use Rattle.words.specs.Line.{unread};

use reach::data::ScopeKind;
use std::fmt;
use words::Words;

// `plain`, `block B label L`, `label L` or `macro M`. A label of 0 is none, as in the line.
#[derive(Clone, Copy, PartialEq, Eq)]
pub enum Maker {
    Plain,
    Block { block: usize, label: usize },
    Label(usize),
    Definition(usize),
}

impl From<ScopeKind> for Maker {
    ghost from_gives = { λ kind maker. maker ≡ maker_of kind };

    fn from(kind: ScopeKind) -> Maker {
        match kind {
            ScopeKind::Plain => Maker::Plain,
            ScopeKind::Block { id, label } => Maker::Block {
                block: id.0 as usize,
                label: label.map_or(0, |label| label.0 as usize),
            },
            ScopeKind::Label(label) => Maker::Label(label.0 as usize),
            ScopeKind::MacroDef(id) => Maker::Definition(id.0 as usize),
        }
    }
}

impl Maker {
    pub(crate) fn parse(words: &mut Words) -> Option<Maker>
        ensures is_what_the_words_say { IfSome result (λ m. MakerTold (unread words.old) m (unread words.new)) }
    {
        match words.take()? {
            "plain" => Some(Maker::Plain),
            "label" => Some(Maker::Label(words.number()?)),
            "macro" => Some(Maker::Definition(words.number()?)),
            "block" => {
                let block = words.number()?;
                let label = words.number_after("label")?;
                Some(Maker::Block { block, label })
            }
            _ => None,
        }
    }
}

impl fmt::Display for Maker {
    fn fmt<W: fmt::Write>(&self, f: &mut fmt::Formatter<W>) -> fmt::Result {
        match *self {
            Maker::Plain => f.write_str("plain"),
            Maker::Block { block, label } => write!(f, "block {block} label {label}"),
            Maker::Label(label) => write!(f, "label {label}"),
            Maker::Definition(id) => write!(f, "macro {id}"),
        }
    }
}
