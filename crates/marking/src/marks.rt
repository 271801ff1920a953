// The symbols of a pattern as marks, and their set.
ghost use Rattle.std.specs.Prelude.{◌≡◌, ◌≤◌, eqb, get_or};
ghost use Rattle.sets.specs.Symbols.{set_of, set_of_symbols};
ghost use Rattle.sets.specs.Symbols.{Marks, MarksOf, word_with_mark};

use sets::symbols::Symbols;
use shapes::tables::table;

// The marks of a pattern: 1 for each symbol that it has, 0 for the others. A cell costs one store and no branch, so a
// large pattern is read at the speed of its bytes.
fn marks_of(pattern: &[u8]) -> [u8; 256]
    ensures { MarksOf pattern.now result }
{
    let mut marks = table(0);
    for v in pattern {
        marks[usize::from(*v)] = 1;
    }
    marks
}

// The 64 marks from there on as a word, the first as its lowest bit: from the last one down, since each doubles what
// stands above it.
fn mark_word(marks: &[u8; 256], from: usize) -> u64
    requires { Marks marks.now × (from ≤ 192) }
    ensures { result ≡ word_with_mark marks.now from 64 }
{
    let mut w = 0;
    for k in (0..64).rev() {
        w = 2 * w + u64::from(marks[from + k]);
    }
    w
}

// The set of the symbols that are marked.
pub fn symbols_marked(marks: &[u8; 256]) -> Symbols
    requires { Marks marks.now }
    ensures { result ≡ set_of (λ v. eqb (get_or marks.now v 0) 1) }
{
    Symbols {
        words: [
            mark_word(marks, 0),
            mark_word(marks, 64),
            mark_word(marks, 128),
            mark_word(marks, 192),
        ],
    }
}

// The set of the symbols in a pattern.
pub fn symbol_set(pattern: &[u8]) -> Symbols
    ensures { result ≡ set_of_symbols pattern.now }
{
    let marks = marks_of(pattern);
    symbols_marked(&marks)
}
