// A window of a text is read in place, through a view: the text's slice, its row width and the window's corner. Nothing
// is copied. Three layers. The work is done by functions of a slice and numbers, which ask only that the row or the cell
// that is read lies in the text. Above them stand thin functions over a view of that corner, and with plain parameters.
// Above these stands the view of a window that is known to lie in the text as a whole: its reads are one line over them.
#![tactic(auto)]

ghost use Rattle.std.specs.Prelude.{◌≡◌, ◌+◌, ◌<◌};
ghost use Rattle.cells.specs.Windows.{cells_of_row, window_at};
ghost use Rattle.view.specs.Inside.{RowInside, CellInside};
ghost use Rattle.view.specs.Places.{window_of, cell_count, corner_of, Placed};

use cells::windows::WindowPlace;

// Where a window of a text is read: its rows are parts of the text, columns apart, and the first one begins at the
// corner. Nothing is said of its sides, nor that it lies in the text.
#[derive(Clone, Copy)]
pub struct CornerView<'a> {
    pub text: &'a [u8],
    pub columns: usize,
    pub row: usize,
    pub column: usize,
}

// Row i of the window of that width, as a part of the text.
#[inline]
pub fn row_part(
    text: &[u8],
    columns: usize,
    row: usize,
    column: usize,
    width: usize,
    i: usize,
) -> &[u8]
    requires { RowInside text.now columns row column width i }
    ensures { result.now ≡ cells_of_row text.now columns (row + i) column width }
{
    let start = (row + i) * columns + column;
    &text[start..start + width]
}

// The symbol at position p of the window of that width.
#[inline]
pub fn cell_at(text: &[u8], columns: usize, row: usize, column: usize, width: usize, p: usize) -> u8
    requires { CellInside text.now columns row column width p }
    ensures { result ≡ window_at text.now columns row column width p }
{
    let i = p / width;
    let j = p % width;
    text[(row + i) * columns + column + j]
}

// The view of the window at that corner.
#[inline]
pub fn window_view<'a>(text: &'a [u8], columns: usize, row: usize, column: usize) -> CornerView<'a>
    ensures { (result.text ≡ text.entry) × (result.columns ≡ columns) × (result.row ≡ row) × (result.column ≡ column) }
{
    CornerView {
        text,
        columns,
        row,
        column,
    }
}

// Row i of a view. It takes the view apart and leaves the work to `row_part`.
#[inline]
pub fn row_of<'a>(v: CornerView<'a>, width: usize, i: usize) -> &'a [u8]
    requires { RowInside v.text.now v.columns v.row v.column width i }
    ensures { result.now ≡ cells_of_row v.entry.text.now v.entry.columns (v.entry.row + i) v.entry.column width }
{
    row_part(v.text, v.columns, v.row, v.column, width, i)
}

// The symbol at position p of a view. It takes the view apart and leaves the work to `cell_at`.
#[inline]
pub fn symbol_of<'a>(v: CornerView<'a>, width: usize, p: usize) -> u8
    requires { CellInside v.text.now v.columns v.row v.column width p }
    ensures { result ≡ window_at v.entry.text.now v.entry.columns v.entry.row v.entry.column width p }
{
    cell_at(v.text, v.columns, v.row, v.column, width, p)
}

// Row i of the window, through the view.
#[inline]
pub fn window_row(
    text: &[u8],
    columns: usize,
    row: usize,
    column: usize,
    width: usize,
    i: usize,
) -> &[u8]
    requires { RowInside text.now columns row column width i }
    ensures { result.now ≡ cells_of_row text.now columns (row + i) column width }
{
    row_of(window_view(text, columns, row, column), width, i)
}

// The symbol at position p of the window, through the view.
#[inline]
pub fn window_symbol(
    text: &[u8],
    columns: usize,
    row: usize,
    column: usize,
    width: usize,
    p: usize,
) -> u8
    requires { CellInside text.now columns row column width p }
    ensures { result ≡ window_at text.now columns row column width p }
{
    symbol_of(window_view(text, columns, row, column), width, p)
}

// A window of a text: its rows are parts of the text, the place's row width apart, and the first one begins at the
// corner. Who makes a view shows that the window lies in the text, and whoever is handed one knows it.
#[derive(Clone, Copy)]
pub struct WindowView<'a> {
    pub text: &'a [u8],
    pub place: WindowPlace,
    pub ghost placed: { Placed text.now place },
}

impl<'a> WindowView<'a> {
    // Where the window's corner lies in the text.
    #[inline]
    pub fn corner(self) -> usize
        ensures { result ≡ corner_of self.entry.place }
    {
        self.place.row * self.place.columns + self.place.column
    }

    // Row i of the window, as a part of the text.
    #[inline]
    pub fn row_cells(self, i: usize) -> &'a [u8]
        requires { i < self.place.height }
        ensures { let v = self.entry.place in
            result.now ≡ cells_of_row self.entry.text.now v.columns (v.row + i) v.column v.width }
    {
        let v = self.place;
        window_row(self.text, v.columns, v.row, v.column, v.width, i)
    }

    // The symbol at position p of the window.
    #[inline]
    pub fn symbol(self, p: usize) -> u8
        requires { p < cell_count self.place }
        ensures { result ≡ window_of self.entry.text.now self.entry.place p }
    {
        let v = self.place;
        window_symbol(self.text, v.columns, v.row, v.column, v.width, p)
    }
}
