// One part of a row of a window against a pattern as it lies.
ghost use Rattle.std.specs.Prelude.{◌≡◌, ◌+◌, ◌≤◌, ◌<◌, length};
ghost use Rattle.prefixes.specs.State.{agrees_test, earlier_distance};
ghost use Rattle.rows.specs.Rows.{PartAt, EndsPart};

use placed::pattern::Pattern;

// Whether no mismatch ends at position p, where none ends before it: a is the pattern's symbol there, and near one more
// than the last place of the window's symbol in the strip, which counts only past start, where the window begins.
#[inline(always)]
fn agrees_at<P: Pattern>(
    pattern: P,
    first: &[usize; 256],
    start: usize,
    near: usize,
    p: usize,
    a: u8,
) -> bool
    requires { near ≤ start + length (P.cells pattern) }
    ensures { result ≡ agrees_test (P.cells pattern) first.now start near p a }
{
    if start < near {
        return pattern.at(near - 1 - start) == a;
    }
    first[usize::from(a)] == p
}

// The first cell of a part of a row at which a mismatch ends, or the part's length where none does. The part is n
// cells of the text from place begin on. The window begins at start of its strip, and the part at position from of
// the window. The table has the last places before the part, and afterwards those of the cells that agree as well.
// Only the first of the positions that show one cell of the pattern is held against the tables: behind it none ends
// exactly as long as the text's cells are alike too.
#[inline]
pub fn part_end<P: Pattern, T: Pattern>(
    pattern: P,
    text: T,
    begin: usize,
    n: usize,
    first: &[usize; 256],
    last: &mut [usize; 256],
    start: usize,
    from: usize,
) -> usize
    requires { PartAt (P.cells pattern) (T.cells text) begin n first.now last.old start from }
    ensures { EndsPart (P.cells pattern) (T.cells text) begin n last.old start from result last.new }
{
    let mut b = pattern.before();
    // No `for`: a round passes as many cells as are alike.
    let mut j = 0;
    while j < n {
        b = pattern.next_block(b, from + j);
        let x = usize::from(text.at(begin + j));
        if !agrees_at(pattern, first, start, last[x], from + j, b.symbol) {
            return j;
        }
        let run = text.repeats(begin + j, b.cells.min(n - j));
        j += run;
        last[x] = start + from + j;
        if run < b.cells {
            return j;
        }
    }
    j
}

// The earlier position of the mismatch that ends at position p, where none ends before it: the lesser of two first
// places, that of the pattern's symbol there and that of its symbol at the window symbol's last place.
pub fn earlier_by<P: Pattern>(
    pattern: P,
    first: &[usize; 256],
    start: usize,
    near: usize,
    p: usize,
) -> usize
    requires { (near ≤ start + length (P.cells pattern)) × (p < length (P.cells pattern)) }
    ensures { result ≡ earlier_distance (P.cells pattern) first.now start near p }
{
    let a = first[usize::from(pattern.at(p))];
    if near <= start {
        return a;
    }
    let b = first[usize::from(pattern.at(near - 1 - start))];
    a.min(b)
}
