// A whole text: comments, the header, the blocks, the clauses, and nothing after them.
ghost use Rattle.std.specs.Prelude.{◌≡◌, ℕ, None, Err, MatchResult};
ghost use Rattle.reader.specs.Words.{said, first};
ghost use Rattle.reader.specs.Text.{between, block_side, reading, headed, reads, after_device};
ghost use Rattle.reader.specs.Text.{clauses as clauses'};
ghost use Rattle.reader.specs.Left.{left, size, drawn, formula_in};
ghost use Rattle.reader.specs.Grammar.{Writes};
ghost use Rattle.formula.specs.Game.{Qbf};
ghost use Rattle.formula.specs.Model.{qbf};
ghost use Rattle.formula.specs.Built.{Built};

use crate::blocks::read_blocks;
use crate::clauses::read_clauses;
use crate::faults::{MAX_TEXT, TextFault, WordFault};
use crate::header::read_header;
use crate::numbers::due_number;
use crate::words::{Token, Words};
use formula::{Draft, Formula, Side};

// The fault of a word after a last block of the device.
fn after_device(token: Token, variables: usize, clauses: usize) -> TextFault
    ensures { (b : Built) → b.variables ≡ variables → after_device clauses b (said token.entry) ≡ Err result }
{
    let at = token.offset();
    if clauses == 0 {
        return TextFault::LastBlockDevice(at);
    }
    match due_number(token) {
        Ok(numeral) if numeral.value.unsigned_abs() as usize > variables => TextFault::OutOfRange(
            at,
        ),
        Ok(_) => TextFault::LastBlockDevice(at),
        Err(fault) => TextFault::Word(fault),
    }
}

// After the blocks: the last one is ours, or there is none, or the text ends.
fn check_last_block(words: &Words, draft: &Draft, clauses: usize) -> Result<(), TextFault>
    requires { block_side (first (size words.now) (left words.now)) ≡ None }
    ensures { MatchResult result (λ _. reading clauses (size words.now) between (drawn draft.now) (left words.now) ≡ reading clauses (size words.now) (clauses' clauses) (drawn draft.now) (left words.now)) (λ e. reading clauses (size words.now) between (drawn draft.now) (left words.now) ≡ Err e) }
{
    if draft.last_side() != Some(Side::Device) {
        return Ok(());
    }
    let mut ahead = *words;
    match ahead.next() {
        Token::End(_) => Ok(()),
        token => Err(after_device(token, draft.variables(), clauses)),
    }
}

// After the clauses: nothing but the end of the text.
fn read_end(words: &mut Words, draft: Draft) -> Result<Formula, TextFault>
    ensures { (k : ℕ) → reading k (size words.old) (clauses' 0) (drawn draft) (left words.old) ≡ formula_in result }
{
    match words.next() {
        Token::End(at) => draft.finish().ok_or(TextFault::LastBlockDevice(at)),
        token => Err(TextFault::WordAfterEnd(token.offset())),
    }
}

// Reads the words of a text after its comments.
fn read_words(words: &mut Words) -> Result<Formula, TextFault>
    ensures { formula_in result ≡ headed (size words.old) (left words.old) }
{
    let header = read_header(words)?;
    let Some(mut draft) = Draft::new(header.variables) else {
        unreachable()
    };
    read_blocks(words, &mut draft)?;
    check_last_block(words, &draft, header.clauses)?;
    read_clauses(words, &mut draft, header.clauses)?;
    read_end(words, draft)
}

// Reads a formula, or finds the first fault of the text.
pub fn read(text: &[u8]) -> Result<Formula, TextFault>
    ensures result { formula_in result ≡ reads text.now }
    ensures writes { MatchResult result (λ f. Writes text.now (qbf f.parts)) (λ _. (q : Qbf) → Writes text.now q → ⊥) }
{
    if text.len() > MAX_TEXT {
        return Err(TextFault::Word(WordFault::TooLong));
    }
    read_words(&mut Words::new(text))
}
