// Where an offset of a text lies, as people count: lines and columns from 1.
ghost use Rattle.std.specs.Prelude.{◌≡◌};
ghost use Rattle.reader.specs.Lines.{position_at};

#[derive(Clone, Copy, PartialEq, Eq, Debug)]
pub struct Position {
    pub line: usize,
    pub column: usize,
}

// The position of the byte at an offset, or of the end of the text. A line ends with its line feed; a column is a byte.
pub fn position_of(text: &[u8], offset: usize) -> Position
    ensures { result ≡ position_at text.now offset }
{
    let before = &text[..offset.min(text.len())];
    Position {
        line: 1 + before.iter().filter(|b| **b == b'\n').count(),
        column: 1 + before.iter().rev().take_while(|b| **b != b'\n').count(),
    }
}
