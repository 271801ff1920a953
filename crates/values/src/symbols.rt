// Sets of symbols as four words, with no `From`: a set's type is of another crate, and so are arrays.
ghost use Rattle.std.specs.Prelude.{◌≡◌};
ghost use Rattle.values.specs.Symbols.{word_list, symbols_of_words};

use sets::symbols::Symbols;

// A set's four words.
pub fn words_of(s: Symbols) -> [u64; 4]
    ensures { result ≡ word_list s }
{
    s.words
}

// The set that four words hold.
pub fn symbols_in(words: &[u64; 4]) -> Symbols
    ensures { result ≡ symbols_of_words words.now }
{
    Symbols { words: *words }
}
