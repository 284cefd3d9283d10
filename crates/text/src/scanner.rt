// A text taken apart into its lines, and a line into its words.

ghost use Rattle.std.specs.Prelude.{◌≡◌, ◌+◌, ◌^◌, ◌<◌, ◌≤◌, [], ◌∷◌, length, MatchOption};
ghost use Rattle.std.specs.Iterator.{at_most};
ghost use Rattle.std.specs.Option.{option_map};
ghost use Rattle.text.specs.Lines.{left, next_line};
ghost use Rattle.text.specs.Words.{words_of, after_blanks, front_word, after_word};

use crate::bytes::Class;
use memchr::memchr;

/// The words of a line that are not yet read, at the front of a text.
#[derive(Clone, Copy)]
pub struct Words<'a> {
    rest: &'a [u8],
}

/// A line: its number, counted from 1, and its words.
#[derive(Clone, Copy)]
pub struct Line<'a> {
    pub number: usize,
    pub words: Words<'a>,
}

/// The text from a line on, if there is one more, and how many lines were passed before it.
#[derive(Clone, Copy)]
pub struct Lines<'a> {
    rest: Option<&'a [u8]>,
    passed: usize,
    // A line that was passed took a byte of the text at least, so the count of lines cannot wrap.
    ghost counted: { passed + left rest ≤ 2 ^ 63 },
}

/// A text as the first word of its line, which is empty where the line has no word, and what follows that. An empty slice
/// and no Option, since what follows is there in both cases.
fn cut_word(text: &[u8]) -> (&[u8], &[u8])
    ensures word { result.0.now ≡ front_word (after_blanks text.now) }
    ensures rest { result.1.now ≡ after_word (after_blanks text.now) }
    ensures none { length result.0.now ≡ 0 → words_of text.now ≡ [] }
    ensures some { 0 < length result.0.now → words_of text.now ≡ result.0.now ∷ words_of result.1.now }
    ensures line { next_line result.1.now ≡ next_line text.now }
    ensures within { length result.1.now ≤ length text.now }
    ensures shorter { 0 < length result.0.now → length result.1.now < length text.now }
{
    let (_, text) = text.split_at(Class::Blank.run(text));
    text.split_at(Class::Word.run(text))
}

/// What stands past the first line feed of a text, if it has one.
fn after_line(text: &[u8]) -> Option<&[u8]>
    ensures value { option_map (λ x. x.now) result ≡ next_line text.now }
    ensures shorter { left result ≤ length text.now }
{
    let end = memchr(b'\n', text)?;
    Some(&text[end + 1..])
}

impl<'a> Lines<'a> {
    /// The lines of a text. It has one, if an empty one, where it has no line feed.
    pub fn new(text: &'a [u8]) -> Lines<'a>
        ensures rest { MatchOption result.rest ⊥ (λ x. x.now ≡ text.now) }
        ensures passed { result.passed ≡ 0 }
    {
        Lines {
            rest: Some(text),
            passed: 0,
        }
    }
}

impl<'a> Iterator for Lines<'a> {
    ghost use Rattle.text.specs.Scanner.{NextLine};

    type Item = Line<'a>;

    ghost next_gives = { NextLine };

    ghost remaining = { λ s. at_most (left s.rest) };

    fn next(&mut self) -> Option<Line<'a>> {
        let text = self.rest?;
        self.rest = after_line(text);
        self.passed += 1;
        Some(Line {
            number: self.passed,
            words: Words { rest: text },
        })
    }
}

impl<'a> Iterator for Words<'a> {
    ghost use Rattle.text.specs.Scanner.{NextWord};

    type Item = &'a [u8];

    ghost next_gives = { NextWord };

    ghost remaining = { λ s. at_most (length s.rest.now) };

    fn next(&mut self) -> Option<&'a [u8]> {
        let (word, rest) = cut_word(self.rest);
        self.rest = rest;
        if word.is_empty() { None } else { Some(word) }
    }
}
