// The words of a line, read one after another.
#![tactic(auto)]

ghost use Rattle.std.specs.Char.{is_not_whitespace, is_whitespace};
ghost use Rattle.std.specs.Prelude.{◌≡◌, IfSome, MatchOption, OnSome};
ghost use Rattle.std.specs.Str.Parse.{without_leading_plus, digits_value};
ghost use Rattle.std.specs.Str.{NoCharPasses};
ghost use Rattle.words.specs.Line.{Labelled, Number, Word, unread};

use std::str::SplitWhitespace;

fn number(word: &str) -> Option<usize>
    ensures reads_digits { IfSome result (λ n. n ≡ digits_value 10 (without_leading_plus word.now)) }
{
    word.parse::<usize>().ok()
}

// The first word of a line, and no text for a blank line.
pub fn first_word(line: &str) -> &str
    ensures has_no_white_space { NoCharPasses is_whitespace result.now }
{
    line.split_whitespace().next().unwrap_or("")
}

#[derive(Drop)]
pub struct Words<'a> {
    rest: SplitWhitespace<'a>,
}

impl<'a> Words<'a> {
    pub fn new(line: &'a str) -> Words<'a>
        ensures has_the_whole_line { unread result ≡ line.now }
    {
        Words {
            rest: line.split_whitespace(),
        }
    }

    // The next word, if there is one.
    pub fn take(&mut self) -> Option<&'a str>
        ensures is_the_next_word_if_one_is_left { MatchOption result
            (NoCharPasses is_not_whitespace (unread self.old))
            (λ w. Word (unread self.old) w.now (unread self.new)) }
    {
        self.rest.next()
    }

    pub fn number(&mut self) -> Option<usize>
        ensures reads_the_next_word { IfSome result (λ n. Number (unread self.old) n (unread self.new)) }
    {
        number(self.take()?)
    }

    // Passes over the next word; none where it is another word than this.
    pub fn word(&mut self, expected: &str) -> Option<()>
        ensures passes_that_word { OnSome result (Word (unread self.old) expected.now (unread self.new)) }
    {
        let word = self.take()?;
        (word == expected).then_some(())
    }

    // The number after this word.
    pub fn number_after(&mut self, expected: &str) -> Option<usize>
        ensures reads_word_and_number { IfSome result (λ n. Labelled (unread self.old) expected.now n (unread self.new)) }
    {
        self.word(expected)?;
        self.number()
    }

    // Nothing, at the end of the line; none where a word is left.
    pub fn end(&mut self) -> Option<()>
        ensures no_word_is_left { OnSome result (NoCharPasses is_not_whitespace (unread self.old)) }
    {
        self.take().is_none().then_some(())
    }
}
