// The blocks of a text: a letter, variables, 0.
ghost use Rattle.std.specs.Prelude.{◌≡◌, ◌≤◌, true, if◌then◌else◌, length, is_ok, None, Ok, Err, MatchResult};
ghost use Rattle.reader.specs.Words.{said, first};
ghost use Rattle.reader.specs.Text.{between, in_block, block_side, variable_step};
ghost use Rattle.reader.specs.Left.{left, size, drawn};
ghost use Rattle.reader.specs.Continues.{Goes, Fails, Stepped};
ghost use Rattle.formula.specs.Built.{may_start, started};
ghost use Rattle.reader.specs.declared.faults.TextFault.TheVariants.{BadBlock};

use crate::faults::TextFault;
use crate::numbers::{Numeral, due_number};
use crate::words::{Token, Words};
use formula::{BindFault, Draft, Side};

// The side of the block that a token begins.
fn block_side(token: Token) -> Option<Side>
    ensures { result ≡ block_side (said token.entry) }
{
    match token {
        Token::Letter(b'a', _, _) => Some(Side::Device),
        Token::Letter(b'e', _, _) => Some(Side::Ours),
        _ => None,
    }
}

// Starts the level of a block that begins at `at`.
fn start(draft: &mut Draft, side: Side, at: usize) -> Result<(), TextFault>
    ensures whole { (drawn draft.new).clauses ≡ (drawn draft.old).clauses }
    ensures starts { Stepped in_block (if may_start side (drawn draft.old) then Ok (in_block, started side (drawn draft.old)) else Err (BadBlock at)) (drawn draft.new) result }
{
    draft.start_level(side).map_err(|_| TextFault::BadBlock(at))
}

// Binds a variable of a block.
fn bind(draft: &mut Draft, variable: Numeral) -> Result<(), TextFault>
    ensures whole { (drawn draft.new).clauses ≡ (drawn draft.old).clauses }
    ensures binds { Stepped in_block (variable_step variable.value variable.at (drawn draft.old)) (drawn draft.new) result }
{
    let value = usize::try_from(variable.value).map_err(|_| TextFault::OutOfRange(variable.at))?;
    draft.bind(value).map_err(|fault| match fault {
        BindFault::NoVariable => TextFault::OutOfRange(variable.at),
        BindFault::BoundTwice => TextFault::BoundTwice(variable.at),
    })
}

// The variables of a block, up to its 0.
fn read_block(words: &mut Words, draft: &mut Draft) -> Result<(), TextFault>
    ensures fewer { length (left words.new) ≤ length (left words.old) }
    ensures size { size words.new ≡ size words.old }
    ensures whole { (drawn draft.new).clauses ≡ (drawn draft.old).clauses }
    ensures reads { MatchResult result (λ _. Goes (size words.old) in_block (drawn draft.old) (left words.old) between (drawn draft.new) (left words.new)) (Fails (size words.old) in_block (drawn draft.old) (left words.old)) }
{
    loop {
        let numeral = due_number(words.next())?;
        if numeral.value == 0 {
            if draft.level_is_empty() {
                return Err(TextFault::BadBlock(numeral.at));
            }
            return Ok(());
        }
        bind(draft, numeral)?;
    }
}

// All blocks. What is left begins with the word that begins no block.
pub(crate) fn read_blocks(words: &mut Words, draft: &mut Draft) -> Result<(), TextFault>
    ensures size { size words.new ≡ size words.old }
    ensures whole { (drawn draft.new).clauses ≡ (drawn draft.old).clauses }
    ensures stops { is_ok result ≡ true → block_side (first (size words.new) (left words.new)) ≡ None }
    ensures reads { MatchResult result (λ _. Goes (size words.old) between (drawn draft.old) (left words.old) between (drawn draft.new) (left words.new)) (Fails (size words.old) between (drawn draft.old) (left words.old)) }
{
    loop {
        let mut ahead = *words;
        let token = ahead.next();
        let Some(side) = block_side(token) else {
            return Ok(());
        };
        start(draft, side, token.offset())?;
        *words = ahead;
        read_block(words, draft)?;
    }
}
