// Theorems about reading. Each function's contract is one; the body only gives the proof a place.
ghost use Rattle.reader.specs.Laws.{ReadingIsWriting, LongTextsRefused};
ghost use Rattle.reader.specs.Examples.{EReads, FReads, SmallTexts, Numbers};

// A formula is read exactly when the text writes it by the grammar.
pub fn what_is_read_is_written() -> u8
    ensures { ReadingIsWriting }
{
    0
}

// A text of more than 65,536 bytes is refused before anything else.
pub fn long_texts_are_refused() -> u8
    ensures { LongTextsRefused }
{
    0
}

// The text of a formula of three levels reads as that formula, which is true.
pub fn a_true_text() -> u8
    ensures { EReads }
{
    0
}

// The text of a formula of two levels reads as that formula, which is false.
pub fn a_false_text() -> u8
    ensures { FReads }
{
    0
}

// The smallest texts, and a clause with a literal and its opposite.
pub fn small_texts() -> u8
    ensures { SmallTexts }
{
    0
}

// What is a number and what is none.
pub fn small_numbers() -> u8
    ensures { Numbers }
{
    0
}
