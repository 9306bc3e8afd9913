// The words of a text: tokens one after another, each a part of the caller's text with its offset.
ghost use Rattle.std.specs.Prelude.{◌≡◌, ◌+◌, ◌<◌, ◌≤◌, length};
ghost use Rattle.reader.specs.Words.{said, place_of, first, rest, left_at, PartOf};
ghost use Rattle.reader.specs.Comments.{text_words};

use crate::bytes::{is_blank, number};
use crate::comments::skip_comments;

// A word of the text with its offset, or the end of the text: a word of one small letter, a number, or another word.
#[derive(Clone, Copy)]
pub enum Token<'a> {
    Letter(u8, &'a [u8], usize),
    Number(i32, &'a [u8], usize),
    Other(&'a [u8], usize),
    End(usize),
}

impl Token<'_> {
    // Where the word begins in the text, or the text's length.
    pub fn offset(&self) -> usize
        ensures { result ≡ place_of (said self.now) }
    {
        match *self {
            Token::Letter(_, _, at) | Token::Number(_, _, at) => at,
            Token::Other(_, at) | Token::End(at) => at,
        }
    }
}

// What is left of a text, from a place on.
#[derive(Clone, Copy)]
pub struct Words<'a> {
    text: &'a [u8],
    at: usize,
    ghost ok: { at ≤ length text.now },
}

impl<'a> Words<'a> {
    // The words of a text, comments left out.
    pub fn new(text: &'a [u8]) -> Words<'a>
        ensures text { result.text.now ≡ text.now }
        ensures words { left_at text.now result.at ≡ text_words text.now }
    {
        let at = skip_comments(text);
        Words { text, at }
    }

    // The next word, or the end of the text.
    pub fn next(&mut self) -> Token<'a>
        ensures said { said result ≡ first (length self.old.text.now) (left_at self.old.text.now self.old.at) }
        ensures left { left_at self.old.text.now self.new.at ≡ rest (left_at self.old.text.now self.old.at) }
        ensures part { PartOf self.old.text.now self.new.at result }
        ensures text { self.new.text.now ≡ self.old.text.now }
    {
        let rest = &self.text[self.at..];
        let gap = rest.iter().take_while(|b| is_blank(**b)).count();
        let word_len = rest[gap..].iter().take_while(|b| !is_blank(**b)).count();
        let from = self.at + gap;
        let to = from + word_len;
        self.at = to;
        let word = &self.text[from..to];
        match word {
            [] => Token::End(from),
            [b] if b.is_ascii_lowercase() => Token::Letter(*b, word, from),
            _ => number(word).map_or(Token::Other(word, from), |z| Token::Number(z, word, from)),
        }
    }
}
