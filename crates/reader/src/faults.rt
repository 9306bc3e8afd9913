// Why a text is no formula: the fault of a word inside that of the text. Each has a number, an offset in the text and a layer.
ghost use Rattle.std.specs.Prelude.{◌≡◌};
ghost use Rattle.reader.specs.declared.faults.TextFault.TheVariants.{Word};
ghost use Rattle.reader.specs.Faults.{word_number, word_offset, text_number, text_offset, text_layer};

use std::error::Error;
use std::fmt;

// The longest text that is read, in bytes.
pub const MAX_TEXT: usize = 65536;

// Which part of the product found a fault.
#[derive(Clone, Copy, PartialEq, Eq, Debug)]
pub enum Layer {
    Words,
    Text,
    Game,
}

#[derive(Clone, Copy, PartialEq, Eq, Debug)]
pub enum WordFault {
    // 1: the text is longer than 65,536 bytes
    TooLong,
    // 3: no number where one is due
    NoNumber(usize),
}

#[derive(Clone, Copy, PartialEq, Eq, Debug)]
pub enum TextFault {
    Word(WordFault),
    // 2: a word other than p or cnf there, or none
    NoHeader(usize),
    // 4: the count of variables or of clauses is negative or above its limit
    BadCount(usize),
    // 5: no declared variable
    OutOfRange(usize),
    // 6: an empty block, a block of the same side as the block before, or a 33rd
    BadBlock(usize),
    // 7: the last block is the device's
    LastBlockDevice(usize),
    // 8: a variable bound twice
    BoundTwice(usize),
    // 9: an unbound variable in a clause
    Unbound(usize),
    // 10: a 4,097th literal
    TooManyLiterals(usize),
    // 11: a word after the last clause
    WordAfterEnd(usize),
}

impl From<WordFault> for TextFault {
    ghost from_gives = { λ e r. r ≡ Word e };

    fn from(fault: WordFault) -> TextFault {
        TextFault::Word(fault)
    }
}

impl WordFault {
    pub fn number(self) -> u8
        ensures { result ≡ word_number self }
    {
        match self {
            WordFault::TooLong => 1,
            WordFault::NoNumber(_) => 3,
        }
    }

    // The word's first byte, or the text's length at its end; 65,536 for a text that is too long.
    pub fn offset(self) -> usize
        ensures { result ≡ word_offset self }
    {
        match self {
            WordFault::TooLong => MAX_TEXT,
            WordFault::NoNumber(at) => at,
        }
    }
}

impl TextFault {
    pub fn number(self) -> u8
        ensures { result ≡ text_number self }
    {
        match self {
            TextFault::Word(fault) => fault.number(),
            TextFault::NoHeader(_) => 2,
            TextFault::BadCount(_) => 4,
            TextFault::OutOfRange(_) => 5,
            TextFault::BadBlock(_) => 6,
            TextFault::LastBlockDevice(_) => 7,
            TextFault::BoundTwice(_) => 8,
            TextFault::Unbound(_) => 9,
            TextFault::TooManyLiterals(_) => 10,
            TextFault::WordAfterEnd(_) => 11,
        }
    }

    pub fn offset(self) -> usize
        ensures { result ≡ text_offset self }
    {
        match self {
            TextFault::Word(fault) => fault.offset(),
            TextFault::NoHeader(at)
            | TextFault::BadCount(at)
            | TextFault::OutOfRange(at)
            | TextFault::BadBlock(at)
            | TextFault::LastBlockDevice(at)
            | TextFault::BoundTwice(at)
            | TextFault::Unbound(at)
            | TextFault::TooManyLiterals(at)
            | TextFault::WordAfterEnd(at) => at,
        }
    }

    pub fn layer(self) -> Layer
        ensures { result ≡ text_layer self }
    {
        match self {
            TextFault::Word(_) => Layer::Words,
            _ => Layer::Text,
        }
    }
}

impl fmt::Display for Layer {
    fn fmt<W: fmt::Write>(&self, f: &mut fmt::Formatter<W>) -> fmt::Result {
        f.write_str(match self {
            Layer::Words => "words",
            Layer::Text => "text",
            Layer::Game => "game",
        })
    }
}

// What is wrong and what to do about it, in one sentence.
impl fmt::Display for WordFault {
    fn fmt<W: fmt::Write>(&self, f: &mut fmt::Formatter<W>) -> fmt::Result {
        f.write_str(match self {
            WordFault::TooLong =>
                "the text is longer than 65,536 bytes; shorten it (comments count too)",
            WordFault::NoNumber(_) => {
                "a number is due here: 0, or one to nine digits with no leading zero, with a minus where a literal is negated"
            }
        })
    }
}

impl Error for WordFault {}

// A fault of a word reads as that of the word.
impl fmt::Display for TextFault {
    fn fmt<W: fmt::Write>(&self, f: &mut fmt::Formatter<W>) -> fmt::Result {
        let why = match self {
            TextFault::Word(fault) => return fault.fmt(f),
            TextFault::NoHeader(_) => {
                "the header is due here: p cnf VARIABLES CLAUSES; comment lines begin with c and stand before it"
            }
            TextFault::BadCount(_) =>
                "a count is due here: at most 256 variables, at most 512 clauses, none negative",
            TextFault::OutOfRange(_) =>
                "this is no declared variable: the header says how many there are",
            TextFault::BadBlock(_) => {
                "this block is empty, follows a block of the same side, or is the 33rd: join it with the block before, or drop it"
            }
            TextFault::LastBlockDevice(_) =>
                "the last block is the device's (a): drop its variables, or end with a block of ours (e)",
            TextFault::BoundTwice(_) => "this variable is bound twice: name it in one block, once",
            TextFault::Unbound(_) => "no block binds this variable: add it to a block",
            TextFault::TooManyLiterals(_) =>
                "this is the 4,097th literal of the clauses: at most 4,096 are taken",
            TextFault::WordAfterEnd(_) =>
                "the last clause has ended: drop this word, or announce more clauses in the header",
        };
        f.write_str(why)
    }
}

impl Error for TextFault {}
