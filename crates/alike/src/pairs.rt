// Eight pairs of cells that are alike in the pattern. A window in which the cells of one of them are not alike does not
// match, whatever else stands in it; on a random text nearly every window is told by them.
ghost use Rattle.std.specs.Prelude.{◌≡◌, ◌+◌, ◌≤◌, ◌<◌, length, get_or};
ghost use Rattle.theory.specs.First.{every};
ghost use Rattle.prefixes.specs.State.{FirstPlaces};
ghost use Rattle.alike.specs.Pairs.{AlikePairs, PairsInside, alike_at};

use cells::windows::cell_offset;
use placed::pattern::Pattern;

// Two cells by their offsets from a window's corner.
#[derive(Clone, Copy)]
pub struct Pair {
    pub earlier: usize,
    pub later: usize,
}

// Up to eight pairs of cells that are alike in the pattern: the first positions whose symbol stands before them, each
// with the first place of that symbol. The rest are the corner with itself, which is alike in every window. The
// contract says only that all eight are alike; which they are is a matter of time.
pub fn alike_pairs<P: Pattern>(
    pattern: P,
    first: &[usize; 256],
    columns: usize,
    width: usize,
) -> [Pair; 8]
    requires { FirstPlaces (λ k. get_or (P.cells pattern) k 0) (length (P.cells pattern)) first.now
        × (0 < width) × (columns ≤ 255)
        × (length (P.cells pattern) ≤ 65025) × (0 < length (P.cells pattern)) }
    ensures { AlikePairs (P.cells pattern) columns width result }
{
    let mut pairs = [Pair {
        earlier: 0,
        later: 0,
    }; 8];
    let mut n = 0;
    for q in 0..pattern.len() {
        if n == 8 {
            break;
        }
        let p = first[usize::from(pattern.at(q))];
        if p == q {
            continue;
        }
        pairs[n] = Pair {
            earlier: cell_offset(columns, width, p),
            later: cell_offset(columns, width, q),
        };
        n += 1;
    }
    pairs
}

// Whether the cells of four pairs, those from pair from on, are alike in the window at that corner. All four are looked
// at: what is added up needs no branch, and where it would go no machine can foresee. Nearly every window of a random
// text is told by the first four.
pub fn pairs_alike(text: &[u8], corner: usize, pairs: &[Pair; 8], from: usize) -> bool
    requires { PairsInside (length text.now) corner pairs.now × (from ≤ 4) }
    ensures { result ≡ every (λ i. alike_at text.now corner pairs.now (from + i)) 4 }
{
    let mut unlike = 0u32;
    for pair in &pairs[from..from + 4] {
        if text[corner + pair.earlier] != text[corner + pair.later] {
            unlike += 1;
        }
    }
    unlike == 0
}
