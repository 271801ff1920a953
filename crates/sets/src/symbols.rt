// The set of the symbols in a pattern: 256 bits in four words.
ghost use Rattle.std.specs.Prelude.{◌≡◌, false, ◌<◌, eqb, length};
ghost use Rattle.theory.specs.Test.{pick};
ghost use Rattle.theory.specs.Count.{members};
ghost use Rattle.refusals.specs.Said.{over_front};
ghost use Rattle.sets.specs.Symbols.{bit_of, word_of, has, size_of, lowest_of, symbol_number};
ghost use Rattle.sets.specs.Symbols.{with_words, without_symbol};

// Bit k of word i is 1 where symbol 64 i + k is in the set.
#[derive(Clone, Copy)]
pub struct Symbols {
    pub words: [u64; 4],
}

// The word with bit k set to 0.
fn clear_bit(w: u64, k: u8) -> u64
    requires { k < 64 }
    ensures { result ≡ word_of (λ j. pick (eqb j k) false (bit_of w j)) 64 }
{
    if (w >> k) % 2 == 1 {
        w - (1u64 << k)
    } else {
        w
    }
}

// Takes v out of a set's words. A list that is lent says in a proof that its entries are words, an array in a struct
// does not. Every word is asked whether it is v's: a store at an index would send the set through memory, and listing
// 256 symbols would take 2.9 us for 0.6.
fn clear_symbol(words: &mut [u64; 4], v: u8)
    ensures { with_words words.new ≡ without_symbol (with_words words.old) v }
{
    let own = usize::from(v / 64);
    for i in 0..4 {
        if i == own {
            words[i] = clear_bit(words[i], v % 64);
        }
    }
}

impl Symbols {
    // The set without v.
    pub fn without(self, v: u8) -> Symbols
        ensures { result ≡ without_symbol self v }
    {
        let mut words = self.words;
        clear_symbol(&mut words, v);
        Symbols { words }
    }

    // How many symbols are in the set.
    pub fn size(self) -> u32
        ensures { result ≡ size_of self }
    {
        let mut n = 0;
        for w in self.words {
            n += w.count_ones();
        }
        n
    }

    // The lowest symbol in the set, if it has one. It is a byte, by `as`: `try_from` would have a way out that no value
    // takes.
    pub fn lowest(self) -> Option<u8>
        ensures { symbol_number result ≡ lowest_of self }
    {
        for (i, w) in self.words.iter().enumerate() {
            if *w != 0 {
                return Some((64 * i as u32 + w.trailing_zeros()) as u8);
            }
        }
        None
    }
}

// The symbols of a set, rising, at the front of a list, and how many they are: for a walk that is made many times over.
pub fn list_symbols(symbols: Symbols, listed: &mut [u8; 256]) -> usize
    ensures count { result ≡ length (members (has symbols) 256) }
    ensures listed_after { listed.new ≡ over_front (members (has symbols) 256) listed.old }
{
    let mut rest = symbols;
    let mut k = 0;
    while let Some(symbol) = rest.lowest() {
        listed[k] = symbol;
        k += 1;
        rest = rest.without(symbol);
    }
    k
}
