// Theorems about games at their open, each the contract of a function with an empty body.
ghost use Rattle.layout.specs.Examples.{WordsOfSmallGames};

pub fn words_of_small_games() -> u8
    ensures { WordsOfSmallGames }
{
    0
}
