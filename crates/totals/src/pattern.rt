// What both steps of the search need to know of the pattern as it lies.
// The symbols stand in an array with their number beside it: there is no heap for a list of them.
ghost use Rattle.std.specs.Prelude.{◌≡◌};
ghost use Rattle.sets.specs.Symbols.{symbols_of};
ghost use Rattle.totals.specs.Pattern.{KnownOf};

use crate::marks::symbols_placed;
use placed::pattern::Pattern;
use sets::symbols::list_symbols;
use shapes::tables::table;

// A pattern as it lies, how many symbols it has, the symbols at the front of a list, rising, and the first place of
// each.
#[derive(Drop)]
pub struct Known<P: Pattern> {
    pub pattern: P,
    pub count: u16,
    pub list: [u8; 256],
    pub first: [usize; 256],
    pub ghost are: { KnownOf (P.cells pattern) count list first },
}

impl<P: Pattern> Known<P> {
    // The symbols, rising.
    pub fn symbols(&self) -> &[u8]
        ensures { result.now ≡ symbols_of (P.cells self.now.pattern) }
    {
        &self.list[..usize::from(self.count)]
    }
}

// What is known of a pattern. Only the first places are found cell by cell: the set is made from them, and number and
// list from the set.
pub fn read_pattern<P: Pattern>(pattern: P) -> Known<P>
    ensures { result.pattern ≡ pattern }
{
    let mut first = table(0);
    pattern.first_places(&mut first);
    let set = symbols_placed(pattern, &first);
    let mut list = table(0);
    // At most 256, by `as`: `try_from` would have a way out that no value takes.
    let count = list_symbols(set, &mut list) as u16;
    Known {
        pattern,
        count,
        list,
        first,
    }
}
