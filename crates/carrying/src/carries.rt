// Whether a window has one symbol for each of the pattern's: every cell has the symbol that the window has in the first
// place of the cell's pattern symbol. What says false here decides nothing: the pairs are then asked of all cells.
ghost use Rattle.std.specs.Prelude.{◌≡◌, true, ◌+◌, ◌*◌, ◌≤◌, ◌<◌, length};
ghost use Rattle.matching.specs.Compared.{pattern_seen, window_seen, cells_seen};
ghost use Rattle.inheriting.specs.Carries.{RowCarried, RowsCarried};
ghost use Rattle.inheriting.specs.Inheritance.{Follows, AboveSeen};
ghost use Rattle.inheriting.specs.Images.{ImagesIn};

use inheriting::images::Imaged;
use inheriting::inherit::inherited_rows;
use rows::run::FirstEnd;

// One row: cells is the pattern's row, row the window's. Two cells a round, and one left over where the row is of odd
// length: one cell a round, by an index or by zip, takes 1.2 to 1.6 times as long on rows of 8 to 255 cells (measured).
fn row_carries(m: Imaged, row: &[u8], cells: &[u8]) -> bool
    requires { ImagesIn m cells.now × (length cells.now ≡ length row.now) }
    ensures { result ≡ true → RowCarried m.entry row.now cells.now (length row.now) }
{
    let n = row.len();
    let mut j = 0;
    while j + 1 < n {
        if m.image(cells[j]) != row[j] {
            return false;
        }
        if m.image(cells[j + 1]) != row[j + 1] {
            return false;
        }
        j += 2;
    }
    if j < n {
        return m.image(cells[j]) == row[j];
    }
    true
}

// Row i, where the rows before it are carried.
fn carry_row(m: Imaged, i: usize) -> bool
    requires { (i < m.compared.window.place.height) × RowsCarried m i }
    ensures { result ≡ true → RowsCarried m.entry (i + 1) }
{
    let c = m.compared;
    row_carries(m, c.window.row_cells(i), c.pattern_row(i))
}

// The rows from row known on, where those before it follow the pattern.
fn rows_carry(m: Imaged, known: usize) -> bool
    requires { let c = m.compared in
        (known ≤ c.window.place.height)
        × Follows (pattern_seen c) (window_seen c) (known * c.window.place.width) }
    ensures { let c = m.entry.compared in
        result ≡ true → Follows (pattern_seen c) (window_seen c) (cells_seen c) }
{
    for i in known..m.compared.window.place.height {
        if !carry_row(m, i) {
            return false;
        }
    }
    true
}

// All rows: those that the window inherits are not looked at. A window that is carried is kept for those below it.
pub fn carries(m: Imaged, own: &mut [FirstEnd; 256], tops: &mut [usize; 256]) -> bool
    requires { AboveSeen m.compared own.old tops.old }
    ensures follows { let c = m.entry.compared in
        result ≡ true → Follows (pattern_seen c) (window_seen c) (cells_seen c) }
    ensures above { AboveSeen m.entry.compared own.new tops.new }
{
    let known = inherited_rows(m.compared, own, tops);
    if !rows_carry(m, known) {
        return false;
    }
    let v = m.compared.window.place;
    tops[v.column] = v.row + 1;
    true
}
