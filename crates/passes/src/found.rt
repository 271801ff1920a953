// The found windows, row by row: their flags name them, and nothing of them is compared. The refused windows' records
// are left out, and where each row of windows begins is noted for them.
// Across and down are written out here: so they are what the laws say, and no call's result stands between.
ghost use Rattle.std.specs.Prelude.{◌≡◌, ◌+◌, ◌*◌, ◌≤◌, ◌<◌, length};
ghost use Rattle.shapes.specs.Shapes.{across, down};
ghost use Rattle.listing.specs.Entries.Put.{Heads, Puts, start_of};
ghost use Rattle.entries.specs.Listing.Offsets.{pair_places};
ghost use Rattle.passes.specs.Windows.{Flagged};
ghost use Rattle.passes.specs.Strips.{piece_of, FoundIn};

use entries::entries::{strip_window, write_if_found};
use entries::offsets::PairPlace;
use placed::pattern::Pattern;
use shapes::shapes::Shape;
use view::WindowView;

// The records of the found windows of row top, whose records begin at start; the place behind those of the row.
fn write_row<P: Pattern>(
    text: &[u8],
    pattern: P,
    s: Shape,
    top: usize,
    pairs: &[PairPlace],
    flags: &[u8],
    listing: &mut [u8],
    start: usize,
) -> usize
    requires { Flagged text.now (P.cells pattern) s flags.now
        × (pairs.now ≡ pair_places (P.cells pattern) s.columns s.width)
        × (top < down s) × (start ≡ start_of (piece_of text.now (P.cells pattern) s) (top * across s))
        × (start_of (piece_of text.now (P.cells pattern) s) (down s * across s) ≤ length listing.old) }
    ensures end { result ≡ start_of (piece_of text.now (P.cells pattern) s) ((top + 1) * across s) }
    ensures puts { Puts (piece_of text.now (P.cells pattern) s) (down s * across s)
        (FoundIn flags.now (top * across s) ((top + 1) * across s)) listing.old
        listing.new }
{
    // The sum that `across` gives: places are products with it, and a call's fact would have to be rewritten in each.
    let wide = s.columns + 1 - s.width;
    let first = top * wide;
    let mut at = start;
    for left in 0..wide {
        let flag = flags[first + left];
        let place = strip_window(s, left, top);
        let w = WindowView { text, place };
        at = write_if_found(w, pattern, flag, pairs, listing, at);
    }
    at
}

// The records of all found windows, and where each row of windows begins; the place behind the records of all windows.
pub fn write_rows<P: Pattern>(
    text: &[u8],
    pattern: P,
    s: Shape,
    pairs: &[PairPlace],
    flags: &[u8],
    heads: &mut [usize; 256],
    listing: &mut [u8],
) -> usize
    requires { Flagged text.now (P.cells pattern) s flags.now
        × (pairs.now ≡ pair_places (P.cells pattern) s.columns s.width)
        × (length heads.old ≡ 256)
        × (start_of (piece_of text.now (P.cells pattern) s) (down s * across s) ≤ length listing.old) }
    ensures end { result ≡ start_of (piece_of text.now (P.cells pattern) s) (down s * across s) }
    ensures heads { Heads (piece_of text.now (P.cells pattern) s) (across s) (down s) 0
        heads.new }
    ensures puts { Puts (piece_of text.now (P.cells pattern) s) (down s * across s)
        (FoundIn flags.now 0 (down s * across s)) listing.old listing.new }
{
    let tall = s.down();
    let mut at = 0;
    for top in 0..tall {
        heads[top] = at;
        at = write_row(text, pattern, s, top, pairs, flags, listing, at);
    }
    at
}
