// The pairs of a found window, each against all cells of its symbol.
ghost use Rattle.std.specs.Prelude.{◌≡◌, true, false, List, [], ℕ, ◌+◌, ◌*◌, ◌<◌};
ghost use Rattle.theory.specs.Older.{Older};
ghost use Rattle.occurrences.specs.Distinct.{contains};
ghost use Rattle.sets.specs.Symbols.{symbols_of};
ghost use Rattle.matching.specs.Compared.{pattern_seen, window_seen, cells_seen};
ghost use Rattle.claims.specs.Claims.{has_image_test, pairs_from};
ghost use Rattle.inheriting.specs.Inheritance.{TablesSeen};
ghost use Rattle.pairs.specs.Pairs.{Marked, PairRead};

use carrying::carries::carries;
use cells::windows::WindowPlace;
use inheriting::images::Imaged;
use inheriting::offsets::make_offsets;
use inheriting::tables::Tables;
use listing::records::{Kind, Record};
use matching::compared::Compared;
use pairs::plain::plain_pairs;
use pairs::window::FoundWindow;
use reading::reader::Cursor;
use refusals::refusals::Refusal;

// Whether the window has b in every cell where the pattern has a: the long way, cell by cell.
fn all_cells_have(c: Compared, a: u8, b: u8) -> bool
    ensures { result ≡ has_image_test (pattern_seen c.entry) (window_seen c.entry) (cells_seen c.entry) a b }
{
    for (p, x) in c.pattern.iter().enumerate() {
        if *x == a && c.window.symbol(p) != b {
            return false;
        }
    }
    true
}

// The same for a symbol of the pattern. Where the window is carried, the symbol's image says it; the long way is walked
// only where `carries` said no, and there the pairs cannot all be right.
fn has_image(w: FoundWindow, a: u8, b: u8) -> bool
    requires { contains w.images.compared.pattern.now a ≡ true }
    ensures { let c = w.entry.images.compared in
        result ≡ has_image_test (pattern_seen c) (window_seen c) (cells_seen c) a b }
{
    if w.carried {
        return w.images.image(a) == b;
    }
    all_cells_have(w.images.compared, a, b)
}

// The pair at a place, where a is the pattern's next symbol. The window's symbols that were given before are marked
// with base. Refused by hand: of `Refusal::unless` is known what is said, and the contract is of the refusal itself.
fn check_pair(
    w: FoundWindow,
    base: u32,
    given: &mut [u32; 256],
    a: u8,
    listing: &[u8],
    at: usize,
) -> Result<usize, Refusal>
    requires { contains w.images.compared.pattern.now a ≡ true }
    ensures { let c = w.entry.images.compared in
        (before : List ℕ) → Marked base before given.old
        → PairRead (pattern_seen c) (window_seen c) (cells_seen c) listing.now a base at before result given.new }
{
    let cursor = Cursor { at };
    let Ok((item, next)) = cursor.read_first(listing, Kind::Pair) else {
        return Err(Refusal::ListingForm(at));
    };
    let Record::Pair {
        pattern: x,
        text: y,
    } = item
    else {
        return Err(Refusal::ListingForm(at));
    };
    if x != a {
        return Err(Refusal::ListingFalse(at));
    }
    let place = usize::from(y);
    if given[place] == base {
        return Err(Refusal::ListingFalse(at));
    }
    if !has_image(w, a, y) {
        return Err(Refusal::ListingFalse(at));
    }
    given[place] = base;
    Ok(next.at)
}

// A pair for each symbol of the pattern, rising: the plain ones first. The symbols are listed once for all windows.
fn check_pairs(
    w: FoundWindow,
    base: u32,
    given: &mut [u32; 256],
    symbols: &[u8],
    listing: &[u8],
    at: usize,
) -> Result<usize, Refusal>
    requires { (symbols.now ≡ symbols_of w.images.compared.pattern.now) × Older base given.old }
    ensures answer { let c = w.entry.images.compared in
        result ≡ pairs_from (pattern_seen c) (window_seen c) (cells_seen c) listing.now
        (symbols_of c.pattern.now) [] at }
    ensures older { Older (base + 256) given.new }
{
    let m = w.images;
    let plain = plain_pairs(
        m.compared.window.text,
        w.carried,
        m.corner,
        m.offsets,
        base,
        given,
        symbols,
        listing,
        at,
    );
    let mut end = at + 3 * plain;
    // By place, since the laws count places in the whole list and not in `&symbols[plain..]`.
    for i in plain..symbols.len() {
        let a = symbols[i];
        end = check_pair(w, base, given, a, listing, end)?;
    }
    Ok(end)
}

// The pairs of a window that stands as found: its new rows are gone through once, before the pairs.
pub fn found_pairs(
    c: Compared,
    symbols: &[u8],
    base: u32,
    tables: &mut Tables,
    listing: &[u8],
    at: usize,
) -> Result<usize, Refusal>
    requires { (symbols.now ≡ symbols_of c.pattern.now) × Older base tables.old.given × TablesSeen c tables.old }
    ensures answer { let c = c.entry in
        result ≡ pairs_from (pattern_seen c) (window_seen c) (cells_seen c) listing.now
        (symbols_of c.pattern.now) [] at }
    ensures older { Older (base + 256) tables.new.given }
    ensures check_tables { TablesSeen c.entry tables.new }
{
    let WindowPlace {
        columns,
        height,
        width,
        ..
    } = c.window.place;
    make_offsets(
        c.pattern,
        symbols,
        columns,
        height,
        width,
        &mut tables.offsets,
    );
    let Some(offsets) = &tables.offsets else {
        unreachable!()
    };
    let images = Imaged {
        compared: c,
        corner: c.window.corner(),
        offsets,
    };
    let carried = carries(images, &mut tables.own, &mut tables.tops);
    let w = FoundWindow { images, carried };
    check_pairs(w, base, &mut tables.given, symbols, listing, at)
}
