// The set of the symbols of a pattern as it lies, from a place of each.
ghost use Rattle.std.specs.Prelude.{◌≡◌, ℕ, ◌<◌, eqb, ltb, length, get_or};
ghost use Rattle.theory.specs.Test.{pick, both};
ghost use Rattle.sets.specs.Symbols.{set_of_symbols, MarksOf, PlacesOf};

use marking::marks::symbols_marked;
use placed::pattern::Pattern;
use sets::symbols::Symbols;
use shapes::tables::table;

// 1 where a pattern of so many cells has symbol v at place p, 0 where it has another one there or ends before it.
fn mark_at<P: Pattern>(pattern: P, cells: usize, p: usize, v: usize) -> u8
    requires { cells ≡ length (P.cells pattern) }
    ensures { result ≡ pick (both (ltb p (length (P.cells pattern))) (eqb (get_or (P.cells pattern) p 0) v)) 1 0 }
{
    u8::from(p < cells && usize::from(pattern.at(p)) == v)
}

// The marks of a pattern as it lies by a table that has a place of each of its symbols, in 256 looks at the pattern,
// however large it is. For a symbol that the pattern does not have the table may have any place: it does not stand
// there. That its cells are bytes is said beside it: who has the set may count them by it.
fn marks_by<P: Pattern>(pattern: P, places: &[usize; 256]) -> [u8; 256]
    requires { PlacesOf (P.cells pattern) places.now }
    ensures marks { MarksOf (P.cells pattern) result }
    ensures bytes { (k : ℕ) → get_or (P.cells pattern) k 0 < 256 }
{
    let cells = pattern.len();
    let mut marks = table(0);
    for (v, p) in places.iter().enumerate() {
        marks[v] = mark_at(pattern, cells, *p, v);
    }
    marks
}

// The set of the symbols in a pattern as it lies, without a walk through it: for a caller who has a place of each.
pub fn symbols_placed<P: Pattern>(pattern: P, places: &[usize; 256]) -> Symbols
    requires { PlacesOf (P.cells pattern) places.now }
    ensures set { result ≡ set_of_symbols (P.cells pattern) }
    ensures bytes { (k : ℕ) → get_or (P.cells pattern) k 0 < 256 }
{
    let marks = marks_by(pattern, places);
    symbols_marked(&marks)
}
