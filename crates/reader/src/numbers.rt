// Numbers among the words.
ghost use Rattle.std.specs.Prelude.{◌≡◌, Ok, Err, MatchResult};
ghost use Rattle.reader.specs.declared.faults.TextFault.TheVariants.{Word};
ghost use Rattle.reader.specs.Words.{said, place_of};
ghost use Rattle.reader.specs.Text.{due};

use crate::faults::WordFault;
use crate::words::Token;

// A number of the text, and where it stands.
#[derive(Clone, Copy)]
pub struct Numeral {
    pub value: i32,
    pub at: usize,
}

// The number that is due here.
pub(crate) fn due_number(token: Token) -> Result<Numeral, WordFault>
    ensures { MatchResult result (λ n. (due (said token.entry) ≡ Ok n.value) × (n.at ≡ place_of (said token.entry))) (λ e. due (said token.entry) ≡ Err (Word e)) }
{
    match token {
        Token::Number(value, _, at) => Ok(Numeral { value, at }),
        _ => Err(WordFault::NoNumber(token.offset())),
    }
}
