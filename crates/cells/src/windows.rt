// A window of a text is read in place, through its corner and the text's row width. Sides and corners are bytes: none
// is above 255.
ghost use Rattle.std.specs.Prelude.{◌≡◌, ◌≤◌, ◌<◌};
ghost use Rattle.cells.specs.Windows.{cell_of, cells_of_row, offset_of};

// A window of a text: the text's row width, the window's corner and its sides.
#[derive(Clone, Copy)]
pub struct WindowPlace {
    pub columns: usize,
    pub row: usize,
    pub column: usize,
    pub height: usize,
    pub width: usize,
}

// How far behind a window's corner its position p lies in the text.
pub fn cell_offset(columns: usize, width: usize, p: usize) -> usize
    requires { (0 < width) × (columns ≤ 255) × (p ≤ 65025) }
    ensures { result ≡ offset_of columns width p }
{
    p / width * columns + p % width
}

// The symbol in cell (i, j) of the window whose corner is (row, column), or none past the text's end.
pub fn window_cell(text: &[u8], row_width: u8, row: u8, column: u8, i: u8, j: u8) -> Option<u8>
    ensures { result ≡ cell_of text.now row_width row column i j }
{
    let down = usize::from(row) + usize::from(i);
    let at = down * usize::from(row_width) + usize::from(column) + usize::from(j);
    text.get(at).copied()
}

// The width cells of a row from a column on, as a part of the text; what lies past the text's end is left out.
pub fn row_cells(text: &[u8], row_width: u8, row: u8, column: u8, width: u8) -> &[u8]
    ensures { result.now ≡ cells_of_row text.now row_width row column width }
{
    let start = usize::from(row) * usize::from(row_width) + usize::from(column);
    let end = start + usize::from(width);
    &text[start.min(text.len())..end.min(text.len())]
}
