// The clauses of a text: literals, 0.
ghost use Rattle.std.specs.Prelude.{◌≡◌, ℕ, suc, ◌+◌, ◌<◌, ◌≤◌, true, length, is_ok, MatchResult};
ghost use Rattle.reader.specs.Text.{clauses, added_at};
ghost use Rattle.reader.specs.Left.{left, size, drawn};
ghost use Rattle.reader.specs.Continues.{Goes, Fails, Stepped};
ghost use Rattle.formula.specs.Built.{adding};

use crate::faults::TextFault;
use crate::numbers::{Numeral, due_number};
use crate::words::Words;
use formula::{Draft, LiteralFault};

// Takes a literal of a clause.
fn add(draft: &mut Draft, literal: Numeral) -> Result<(), TextFault>
    ensures whole { (drawn draft.new).clauses ≡ (drawn draft.old).clauses }
    ensures takes { (c : ℕ) → Stepped (clauses c) (added_at c literal.at (adding literal.value (drawn draft.old))) (drawn draft.new) result }
{
    draft
        .add_literal(literal.value)
        .map_err(|fault| match fault {
            LiteralFault::OutOfRange => TextFault::OutOfRange(literal.at),
            LiteralFault::Unbound => TextFault::Unbound(literal.at),
            LiteralFault::TooMany => TextFault::TooManyLiterals(literal.at),
        })
}

// The literals of a clause, up to its 0, which makes it whole.
fn read_clause(words: &mut Words, draft: &mut Draft) -> Result<(), TextFault>
    requires { length (drawn draft.old).clauses < 512 }
    ensures size { size words.new ≡ size words.old }
    ensures more { is_ok result ≡ true → length (drawn draft.new).clauses ≡ length (drawn draft.old).clauses + 1 }
    ensures reads { (c : ℕ) → MatchResult result (λ _. Goes (size words.old) (clauses (suc c)) (drawn draft.old) (left words.old) (clauses c) (drawn draft.new) (left words.new)) (Fails (size words.old) (clauses (suc c)) (drawn draft.old) (left words.old)) }
{
    loop {
        let numeral = due_number(words.next())?;
        if numeral.value == 0 {
            let Ok(()) = draft.end_clause() else {
                unreachable()
            };
            return Ok(());
        }
        add(draft, numeral)?;
    }
}

// So many clauses.
pub(crate) fn read_clauses(
    words: &mut Words,
    draft: &mut Draft,
    count: usize,
) -> Result<(), TextFault>
    requires { length (drawn draft.old).clauses + count ≤ 512 }
    ensures size { size words.new ≡ size words.old }
    ensures reads { MatchResult result (λ _. Goes (size words.old) (clauses count) (drawn draft.old) (left words.old) (clauses 0) (drawn draft.new) (left words.new)) (Fails (size words.old) (clauses count) (drawn draft.old) (left words.old)) }
{
    for _i in 0..count {
        read_clause(words, draft)?;
    }
    Ok(())
}
