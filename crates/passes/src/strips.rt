// The refused windows, strip by strip: each at the place that its row has come to, with the two cells that the sweep
// finds.
ghost use Rattle.std.specs.Prelude.{◌≡◌, ◌+◌, ◌*◌, ◌≤◌, ◌<◌, length};
ghost use Rattle.shapes.specs.Shapes.{across, down};
ghost use Rattle.prefixes.specs.State.{FirstPlaces};
ghost use Rattle.sets.specs.Symbols.{symbols_of};
ghost use Rattle.matching.specs.Compare.{cell_of_pattern};
ghost use Rattle.sweep.specs.Sweep.{SweepAt, OwnSoFar};
ghost use Rattle.listing.specs.Entries.Put.{Heads, Puts, start_of};
ghost use Rattle.passes.specs.Windows.{Flagged};
ghost use Rattle.passes.specs.Strips.{piece_of, RefusedHere, RefusedIn};

use entries::entries::{strip_window, write_refused};
use placed::pattern::Pattern;
use rows::run::{FirstEnd, Run};
use shapes::shapes::Shape;
use shapes::tables::table;
use sweep::windows::window_end;
use view::WindowView;

// The records of the refused windows at column left. A found one has size bytes, which are written already; it is
// passed over, and the run goes on below it. The pattern's own ends are made as far as a window asks for them, and the
// next strip has them.
fn write_strip<P: Pattern>(
    text: &[u8],
    pattern: P,
    s: Shape,
    left: usize,
    flags: &[u8],
    size: usize,
    first: &[usize; 256],
    own: &mut [FirstEnd; 256],
    heads: &mut [usize; 256],
    listing: &mut [u8],
)
    requires { Flagged text.now (P.cells pattern) s flags.now
        × SweepAt text.now s (P.cells pattern) first.now own.old × (left < across s)
        × (size ≡ 3 + 3 * length (symbols_of (P.cells pattern)))
        × Heads (piece_of text.now (P.cells pattern) s) (across s) (down s) left heads.old
        × (start_of (piece_of text.now (P.cells pattern) s) (down s * across s) ≤ length listing.old) }
    ensures heads { Heads (piece_of text.now (P.cells pattern) s) (across s) (down s) (left + 1)
        heads.new }
    ensures puts { Puts (piece_of text.now (P.cells pattern) s) (down s * across s)
        (RefusedHere flags.now (across s) left (down s)) listing.old listing.new }
    ensures own_so_far { OwnSoFar (P.cells pattern) s.width (down s) own.new }
{
    // The sum that `across` gives: places are products with it, and a call's fact would have to be rewritten in each.
    let wide = s.columns + 1 - s.width;
    let tall = s.down();
    let mut last = table(0);
    let mut run = Run { row: 0, reached: 0 };
    for top in 0..tall {
        let at = heads[top];
        if flags[top * wide + left] == 1 {
            heads[top] = at + size;
            continue;
        }
        let r = window_end(text, pattern, s, left, first, &mut last, own, run, top);
        let place = strip_window(s, left, top);
        let w = WindowView { text, place };
        heads[top] = write_refused(w, pattern, r.end, r.earlier, listing, at);
        run = r.run;
    }
}

// The records of all refused windows. heads has the place of each row's first record, size is the length of a found
// window's records. The pattern's own ends are lent as far as they were made before, and are made on from there.
pub fn write_strips<P: Pattern>(
    text: &[u8],
    pattern: P,
    s: Shape,
    flags: &[u8],
    size: usize,
    first: &[usize; 256],
    own: &mut [FirstEnd; 256],
    heads: &mut [usize; 256],
    listing: &mut [u8],
)
    requires { Flagged text.now (P.cells pattern) s flags.now × (size ≡ 3 + 3 *
        length (symbols_of (P.cells pattern)))
        × FirstPlaces (cell_of_pattern (P.cells pattern)) (length (P.cells pattern)) first.now
        × OwnSoFar (P.cells pattern) s.width (down s) own.old
        × Heads (piece_of text.now (P.cells pattern) s) (across s) (down s) 0 heads.old
        × (start_of (piece_of text.now (P.cells pattern) s) (down s * across s) ≤ length listing.old) }
    ensures { Puts (piece_of text.now (P.cells pattern) s) (down s * across s)
        (RefusedIn flags.now (across s) (down s) (across s)) listing.old
        listing.new }
{
    let wide = s.columns + 1 - s.width;
    for left in 0..wide {
        write_strip(
            text, pattern, s, left, flags, size, first, own, heads, listing,
        );
    }
}
