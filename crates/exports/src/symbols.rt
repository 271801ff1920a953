// Sets of symbols for Rust and C: a set passes as four words.
ghost use Rattle.std.specs.Prelude.{◌≡◌};
ghost use Rattle.sets.specs.Symbols.{set_of_symbols, size_of, lowest_of, without_symbol};
ghost use Rattle.values.specs.Symbols.{word_list, symbols_of_words};

use values::symbols::{symbols_in, words_of};

// The set of a pattern's symbols (document 01, 'Tallies'), as four words: bit k of word i is 1 where symbol 64 i + k is
// in the set.
#[unsafe(no_mangle)]
pub extern "C" fn colourway_symbols(pattern: &[u8], words: &mut [u64; 4])
    ensures { words.new ≡ word_list (set_of_symbols pattern.now) }
{
    *words = words_of(marking::marks::symbol_set(pattern));
}

// How many symbols are in a set.
#[unsafe(no_mangle)]
pub extern "C" fn colourway_symbols_size(words: &[u64; 4]) -> u32
    ensures { result ≡ size_of (symbols_of_words words.now) }
{
    symbols_in(words).size()
}

// The lowest symbol of a set, or 256 where it has none.
#[unsafe(no_mangle)]
pub extern "C" fn colourway_symbols_lowest(words: &[u64; 4]) -> u32
    ensures { result ≡ lowest_of (symbols_of_words words.now) }
{
    match symbols_in(words).lowest() {
        Some(v) => u32::from(v),
        None => 256,
    }
}

// Takes symbol v out of a set.
#[unsafe(no_mangle)]
pub extern "C" fn colourway_symbols_without(words: &mut [u64; 4], v: u8)
    ensures { words.new ≡ word_list (without_symbol (symbols_of_words words.old) v) }
{
    *words = words_of(symbols_in(words).without(v));
}
