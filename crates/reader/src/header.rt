// The header of a text: the words p, cnf, the number of variables, the number of clauses.
ghost use Rattle.std.specs.Prelude.{◌≡◌, ◌≤◌, Err, MatchResult};
ghost use Rattle.reader.specs.Words.{said};
ghost use Rattle.reader.specs.Text.{between, reading, p_due, cnf_due, counted, count_due, headed};
ghost use Rattle.reader.specs.Left.{left, size};
ghost use Rattle.formula.specs.Built.{blank};

use crate::faults::TextFault;
use crate::numbers::{Numeral, due_number};
use crate::words::{Token, Words};
use formula::{MAX_CLAUSES, MAX_VARIABLES};

// What a header announces.
#[derive(Clone, Copy, PartialEq, Eq, Debug)]
pub struct Header {
    pub variables: usize,
    pub clauses: usize,
}

fn p_due(token: Token) -> Result<(), TextFault>
    ensures { result ≡ p_due (said token.entry) }
{
    match token {
        Token::Letter(b'p', _, _) => Ok(()),
        _ => Err(TextFault::NoHeader(token.offset())),
    }
}

fn cnf_due(token: Token) -> Result<(), TextFault>
    ensures { result ≡ cnf_due (said token.entry) }
{
    match token {
        Token::Other([b'c', b'n', b'f'], _) => Ok(()),
        _ => Err(TextFault::NoHeader(token.offset())),
    }
}

// A count from 0 to its limit.
fn counted(numeral: Numeral, limit: usize) -> Result<usize, TextFault>
    ensures { result ≡ counted limit numeral.at numeral.value }
{
    match usize::try_from(numeral.value) {
        Ok(count) if count <= limit => Ok(count),
        _ => Err(TextFault::BadCount(numeral.at)),
    }
}

fn count_due(token: Token, limit: usize) -> Result<usize, TextFault>
    ensures { result ≡ count_due limit (said token.entry) }
{
    counted(due_number(token)?, limit)
}

pub(crate) fn read_header(words: &mut Words) -> Result<Header, TextFault>
    ensures size { size words.new ≡ size words.old }
    ensures reads { MatchResult result (λ h. (h.variables ≤ 256) × (h.clauses ≤ 512) × (headed (size words.old) (left words.old) ≡ reading h.clauses (size words.old) between (blank h.variables) (left words.new))) (λ e. headed (size words.old) (left words.old) ≡ Err e) }
{
    p_due(words.next())?;
    cnf_due(words.next())?;
    let variables = count_due(words.next(), MAX_VARIABLES)?;
    let clauses = count_due(words.next(), MAX_CLAUSES)?;
    Ok(Header { variables, clauses })
}
