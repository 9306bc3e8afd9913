// Bytes, and the numbers that words of bytes write.
ghost use Rattle.std.specs.Prelude.{◌≡◌, ◌<◌, IfSome};
ghost use Rattle.reader.specs.Bytes.{blank, plain, number_of};

// Space, tab, carriage return and line feed stand between words.
pub(crate) fn is_blank(b: u8) -> bool
    ensures { result ≡ blank b }
{
    matches!(b, b' ' | b'\t' | b'\r' | b'\n')
}

// One to nine digits, the first not 0.
fn digits(word: &[u8]) -> Option<u32>
    ensures value { result ≡ plain word.now }
    ensures small { IfSome result (λ n. n < 1000000000) }
{
    if word.is_empty() || word.len() > 9 || word[0] == b'0' {
        return None;
    }
    // no try_fold: its clauses bound no number so far, and so not the product
    let mut n: u32 = 0;
    for b in word {
        if !b.is_ascii_digit() {
            return None;
        }
        n = n * 10 + u32::from(*b - b'0');
    }
    Some(n)
}

// 0, or one to nine digits with no leading zero; a minus may stand before any but 0.
pub(crate) fn number(word: &[u8]) -> Option<i32>
    ensures { result ≡ number_of word.now }
{
    match word {
        [b'0'] => Some(0),
        [b'-', rest @ ..] => digits(rest).map(|n| -(n as i32)),
        _ => digits(word).map(|n| n as i32),
    }
}
