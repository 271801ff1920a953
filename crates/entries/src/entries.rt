// The records of one window: found with its pairs, or the mismatch that spoils it.
// The buffer and its place are no struct: each clause would name them through `entry`.
ghost use Rattle.std.specs.Prelude.{◌≡◌, ◌+◌, ◌≤◌, ◌<◌, eqb, length};
ghost use Rattle.theory.specs.Test.{pick};
ghost use Rattle.matching.specs.Compare.{cell_of_pattern};
ghost use Rattle.view.specs.Places.{window_of, cell_count};
ghost use Rattle.matching.specs.Windows.{SmallPlace};
ghost use Rattle.theory.specs.Written.{written};
ghost use Rattle.listing.specs.Entries.{bytes_all, cell_at, mismatch_body_at};
ghost use Rattle.entries.specs.Listing.{entry_at};
ghost use Rattle.prefixes.specs.Prefixes.{EndIs};
ghost use Rattle.sets.specs.Symbols.{symbols_of};
ghost use Rattle.entries.specs.Listing.Offsets.{pair_places};
ghost use Rattle.entries.specs.Listing.Pairs.{pair_bytes};
ghost use Rattle.entries.specs.Listing.Entries.{images_at, found_records, Unmatched, Answered};
ghost use Rattle.entries.specs.Listing.{window_of_strip};

use crate::offsets::PairPlace;
use cells::windows::WindowPlace;
use listing::records::{MismatchBody, Place, Record, write_mismatch, write_record};
use placed::pattern::Pattern;
use shapes::shapes::Shape;
use view::WindowView;

// The window at row top of the strip at column left.
pub fn strip_window(s: Shape, left: usize, top: usize) -> WindowPlace
    ensures { result ≡ window_of_strip s left top }
{
    WindowPlace {
        columns: s.columns,
        row: top,
        column: left,
        height: s.height,
        width: s.width,
    }
}

// The pairs of a found window, the pattern's symbols rising: each with the window's symbol at its first place. The
// table has both at hand, so a pair is two reads, and no division is made.
fn write_pairs<P: Pattern>(
    w: WindowView,
    pattern: P,
    pairs: &[PairPlace],
    listing: &mut [u8],
    at: usize,
) -> usize
    requires { let v = w.place in
        (length (P.cells pattern) ≡ cell_count v) × (pairs.now ≡ pair_places (P.cells pattern) v.columns v.width)
        × (at + length (pair_bytes (images_at w.text.now v (P.cells pattern)) (symbols_of (P.cells pattern)))
        ≤ length listing.old) }
    ensures end { let w = w.entry in
        result ≡ at + length (pair_bytes (images_at w.text.now w.place (P.cells pattern))
        (symbols_of (P.cells pattern))) }
    ensures listing_after { let w = w.entry in
        listing.new ≡ written listing.old at
        (pair_bytes (images_at w.text.now w.place (P.cells pattern)) (symbols_of (P.cells pattern))) }
{
    let corner = w.corner();
    let mut end = at;
    for place in pairs {
        let pair = Record::Pair {
            pattern: place.symbol,
            text: w.text[corner + place.offset as usize],
        };
        end = write_record(listing, end, pair);
    }
    end
}

// The records of a found window.
fn write_found<P: Pattern>(
    w: WindowView,
    pattern: P,
    pairs: &[PairPlace],
    listing: &mut [u8],
    at: usize,
) -> usize
    requires { let v = w.place in
        SmallPlace v × (length (P.cells pattern) ≡ cell_count v)
        × (pairs.now ≡ pair_places (P.cells pattern) v.columns v.width)
        × (at + length (bytes_all (found_records w.text.now v (P.cells pattern))) ≤ length listing.old) }
    ensures end { let w = w.entry in
        result ≡ at + length (bytes_all (found_records w.text.now w.place (P.cells pattern))) }
    ensures listing_after { let w = w.entry in
        listing.new ≡ written listing.old at (bytes_all (found_records w.text.now w.place (P.cells pattern))) }
{
    // Corners are bytes, by `as`: `try_from` would have a way out that no value takes.
    let found = Record::Found {
        row: w.place.row as u8,
        column: w.place.column as u8,
    };
    let next = write_record(listing, at, found);
    write_pairs(w, pattern, pairs, listing, next)
}

// The cell at a position of the window. Positions have 16 bits, and a division of 32 costs less than one of 64. All of
// it fits, by `as`: `try_from` would have a way out that no value takes.
fn cell_of(v: WindowPlace, p: usize) -> Place
    requires { SmallPlace v × (p < cell_count v) }
    ensures { result ≡ cell_at v.width p }
{
    let width = v.width as u32;
    let at = p as u32;
    Place {
        row: (at / width) as u8,
        column: (at % width) as u8,
    }
}

// The window and the two cells of a refused window's record. A corner's numbers are bytes, likewise by `as`.
fn mismatch_body(v: WindowPlace, earlier: usize, later: usize) -> MismatchBody
    requires { SmallPlace v × (earlier < cell_count v) × (later < cell_count v) }
    ensures { result ≡ mismatch_body_at v.row v.column v.width earlier later }
{
    MismatchBody {
        window: Place {
            row: v.row as u8,
            column: v.column as u8,
        },
        earlier: cell_of(v, earlier),
        later: cell_of(v, later),
    }
}

// The record of a window that the pattern does not match: later is the first position at which a mismatch ends, earlier
// the first that mismatches with it.
pub fn write_refused<P: Pattern>(
    w: WindowView,
    pattern: P,
    later: usize,
    earlier: usize,
    listing: &mut [u8],
    at: usize,
) -> usize
    requires { let v = w.place in
        Unmatched w.text.now v (P.cells pattern)
        × EndIs (cell_of_pattern (P.cells pattern)) (window_of w.text.now v) (cell_count v) later earlier
        × (at + length (bytes_all (entry_at w.text.now (P.cells pattern) v)) ≤ length listing.old) }
    ensures end { let w = w.entry in
        result ≡ at + length (bytes_all (entry_at w.text.now (P.cells pattern) w.place)) }
    ensures listing_after { let w = w.entry in
        listing.new ≡ written listing.old at (bytes_all (entry_at w.text.now (P.cells pattern) w.place)) }
{
    let alike = pattern.at(earlier) == pattern.at(later);
    let body = mismatch_body(w.place, earlier, later);
    write_mismatch(listing, at, alike, body)
}

// The records of a window whose flag says that it is found, and none of another; in either case the place behind its
// records.
pub fn write_if_found<P: Pattern>(
    w: WindowView,
    pattern: P,
    flag: u8,
    pairs: &[PairPlace],
    listing: &mut [u8],
    at: usize,
) -> usize
    requires { let v = w.place in
        Answered w.text.now v (P.cells pattern) flag pairs.now
        × (at + length (bytes_all (entry_at w.text.now (P.cells pattern) v)) ≤ length listing.old) }
    ensures end { let w = w.entry in
        result ≡ at + length (bytes_all (entry_at w.text.now (P.cells pattern) w.place)) }
    ensures listing_after { let w = w.entry in
        listing.new ≡ pick (eqb flag 1)
        (written listing.old at (bytes_all (entry_at w.text.now (P.cells pattern) w.place))) listing.old }
{
    if flag == 1 {
        return write_found(w, pattern, pairs, listing, at);
    }
    at + 7
}
