// A mismatch: two cells, each looked at where it stands.
ghost use Rattle.std.specs.Prelude.{◌≡◌, ◌*◌, ◌+◌, ◌<◌};
ghost use Rattle.view.specs.Places.{window_of};
ghost use Rattle.matching.specs.Compared.{pattern_seen, window_seen};
ghost use Rattle.listing.specs.Entries.{in_pattern};
ghost use Rattle.claims.specs.Claims.{alike_only_test, cell_inside_test, true_mismatch_test};

use cells::windows::WindowPlace;
use listing::records::{Place, Side};
use matching::compared::Compared;
use view::WindowView;

// A cell of the pattern.
fn cell_inside(v: WindowPlace, cell: Place) -> bool
    ensures { result ≡ cell_inside_test v.height v.width cell.row cell.column }
{
    usize::from(cell.row) < v.height && usize::from(cell.column) < v.width
}

// The pattern's symbol in a cell.
fn pattern_symbol(c: Compared, cell: Place) -> u8
    requires { (cell.row < c.window.place.height) × (cell.column < c.window.place.width) }
    ensures { result ≡ pattern_seen c.entry (cell.row * c.entry.window.place.width + cell.column) }
{
    c.pattern[usize::from(cell.row) * c.window.place.width + usize::from(cell.column)]
}

// The window's symbol in that cell, read where it stands in the text.
fn window_symbol_in(w: WindowView, cell: Place) -> u8
    requires { (cell.row < w.place.height) × (cell.column < w.place.width) }
    ensures { let v = w.entry.place in
        result ≡ window_of w.entry.text.now v (cell.row * v.width + cell.column) }
{
    let v = w.place;
    w.text[(v.row + usize::from(cell.row)) * v.columns + v.column + usize::from(cell.column)]
}

// Whether two cells of the pattern are alike on that side only.
fn alike_only(c: Compared, alike: Side, q: Place, p: Place) -> bool
    requires { let v = c.window.place in
        (q.row < v.height) × (q.column < v.width) × (p.row < v.height) × (p.column < v.width) }
    ensures { let v = c.entry.window.place in
        result ≡ alike_only_test (in_pattern alike) (pattern_seen c.entry) (window_seen c.entry)
        (q.row * v.width + q.column) (p.row * v.width + p.column) }
{
    let a = pattern_symbol(c, q);
    let b = pattern_symbol(c, p);
    let x = window_symbol_in(c.window, q);
    let y = window_symbol_in(c.window, p);
    match alike {
        Side::Pattern => a == b && x != y,
        Side::Window => x == y && a != b,
    }
}

// Whether two cells spoil the window as the kind says: inside the pattern, the earlier first, alike on that side only.
pub fn true_mismatch(c: Compared, alike: Side, earlier: Place, later: Place) -> bool
    ensures { let v = c.entry.window.place in
        result ≡ true_mismatch_test (in_pattern alike) (pattern_seen c.entry) (window_seen c.entry)
        v.height v.width earlier.row earlier.column later.row later.column }
{
    let v = c.window.place;
    if !cell_inside(v, earlier) {
        return false;
    }
    if !cell_inside(v, later) {
        return false;
    }
    let q = usize::from(earlier.row) * v.width + usize::from(earlier.column);
    let p = usize::from(later.row) * v.width + usize::from(later.column);
    if p <= q {
        return false;
    }
    alike_only(c, alike, earlier, later)
}
