// Comments: before the first word of a text, a line whose first byte is c. Here a text's first word is found.
ghost use Rattle.std.specs.Prelude.{◌≡◌, ◌≤◌, length};
ghost use Rattle.reader.specs.Comments.{past, text_words};
ghost use Rattle.reader.specs.Words.{left_at};

use crate::bytes::is_blank;

// How a byte before the first word stands.
#[derive(Clone, Copy, PartialEq, Eq, Debug)]
pub enum Lead {
    Line,
    Blanks,
    Comment,
}

// How the byte after b stands; None where b begins the first word.
fn past(lead: Lead, b: u8) -> Option<Lead>
    ensures { result ≡ past lead b }
{
    match (lead, b) {
        (_, b'\n') => Some(Lead::Line),
        (Lead::Comment, _) | (Lead::Line, b'c') => Some(Lead::Comment),
        _ => is_blank(b).then_some(Lead::Blanks),
    }
}

// Where the words of a text begin.
pub(crate) fn skip_comments(text: &[u8]) -> usize
    ensures within { result ≤ length text.now }
    ensures words { left_at text.now result ≡ text_words text.now }
{
    let mut lead = Lead::Line;
    for (i, b) in text.iter().enumerate() {
        let Some(next) = past(lead, *b) else {
            return i;
        };
        lead = next;
    }
    text.len()
}
