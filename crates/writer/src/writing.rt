// The listing from the flags: the records of every window in their order, and the closing.
ghost use Rattle.std.specs.Prelude.{◌≡◌, ◌+◌, ◌*◌, ◌≤◌, length};
ghost use Rattle.shapes.specs.Questions.{asked};
ghost use Rattle.shapes.specs.Shapes.{down};
ghost use Rattle.refusals.specs.Said.{over_front};
ghost use Rattle.theory.specs.Written.{written};
ghost use Rattle.sweep.specs.Sweep.{OwnSoFar};
ghost use Rattle.entries.specs.Listing.{search_listing, found_in, refused_in};
ghost use Rattle.passes.specs.Windows.{Flagged, window_bytes};

use entries::offsets::{PairPlace, list_offsets};
use listing::records::{Record, write_record};
use listing::totals::Totals;
use passes::found::write_rows;
use passes::strips::write_strips;
use placed::pattern::Pattern;
use rows::run::FirstEnd;
use shapes::shapes::Shape;
use shapes::tables::table;
use totals::pattern::Known;

// The records of all windows, from the listing's first byte on; the place after them. First those of the found ones in
// their order, then those of the refused ones strip by strip. A table that is read for each cell is copied once: what
// stands in the function's own frame is read without a register for its place.
fn write_windows<P: Pattern>(
    text: &[u8],
    known: &Known<P>,
    s: Shape,
    own: &mut [FirstEnd; 256],
    flags: &[u8],
    listing: &mut [u8],
) -> usize
    requires { Flagged text.now (P.cells known.now.pattern) s flags.now
        × OwnSoFar (P.cells known.now.pattern) s.width (down s) own.old
        × (length (window_bytes text.now (P.cells known.now.pattern) s) ≤ length listing.old) }
    ensures end { result ≡ length (window_bytes text.now (P.cells known.now.pattern) s) }
    ensures listing_after { listing.new ≡ written listing.old 0
        (window_bytes text.now (P.cells known.now.pattern) s) }
{
    let pattern = known.pattern;
    let first = known.first;
    let symbols = known.symbols();
    let d = symbols.len();
    let mut pairs = table(PairPlace {
        symbol: 0,
        offset: 0,
    });
    list_offsets(pattern, s.columns, s.width, symbols, &first, &mut pairs);
    let mut heads = table(0);
    let end = write_rows(text, pattern, s, &pairs[..d], flags, &mut heads, listing);
    let size = 3 + 3 * d;
    write_strips(
        text, pattern, s, flags, size, &first, own, &mut heads, listing,
    );
    end
}

// The second step of the search: the listing from the flags and what they add up to, where there is room for it, with
// what is known of the pattern, and its own ends as far as they were made before.
pub fn write_listing<P: Pattern>(
    text: &[u8],
    known: &Known<P>,
    s: Shape,
    own: &mut [FirstEnd; 256],
    totals: Totals<u16>,
    flags: &[u8],
    listing: &mut [u8],
)
    requires { Flagged text.now (P.cells known.now.pattern) s flags.now
        × (totals.found ≡ found_in (asked text.now (P.cells known.now.pattern) s))
        × (totals.refused ≡ refused_in (asked text.now (P.cells known.now.pattern) s))
        × (length (search_listing (asked text.now (P.cells known.now.pattern) s)) ≤ length listing.old)
        × OwnSoFar (P.cells known.now.pattern) s.width (down s) own.old }
    ensures { listing.new ≡ over_front (search_listing (asked text.now (P.cells known.now.pattern) s))
        listing.old }
{
    let at = write_windows(text, known, s, own, flags, listing);
    let closing = Record::Closing {
        found: totals.found,
        refused: totals.refused,
    };
    write_record(listing, at, closing);
}
