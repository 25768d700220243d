// A case: a line of four words, the name of a sheet and the three numbers of its answer.
ghost use Rattle.refusals.specs.Line.{Numbers, States};
ghost use Rattle.std.specs.Prelude.{◌≡◌, IfSome};
ghost use Rattle.words.specs.Line.{Number, unread};

use crate::answer::Answer;
use words::Words;

#[derive(Clone, Copy)]
pub struct Case<'a> {
    pub name: &'a str,
    pub expected: Answer,
}

fn next_number(words: &mut Words) -> Option<u16>
    ensures reads_the_next_word { IfSome result (λ n. Number (unread words.old) n (unread words.new)) }
{
    u16::try_from(words.number()?).ok()
}

// The three numbers that end a line; none where a word more follows.
fn last_numbers(words: &mut Words) -> Option<Answer>
    ensures reads_three_and_no_more { IfSome result (λ a. Numbers (unread words.old) a) }
{
    let number = next_number(words)?;
    let section = next_number(words)?;
    let place = next_number(words)?;
    words.end()?;
    Some(Answer {
        number,
        section,
        place,
    })
}

impl Case<'_> {
    // The case of a line; none where the line is not four words, the last three being numbers.
    pub(crate) fn parse(line: &str) -> Option<Case<'_>>
        ensures is_what_the_line_states { IfSome result (λ c. States line.now c.name.now c.expected) }
    {
        let mut words = Words::new(line);
        let name = words.take()?;
        let expected = last_numbers(&mut words)?;
        Some(Case { name, expected })
    }
}
