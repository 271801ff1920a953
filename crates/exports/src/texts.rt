// Texts and their windows for Rust and C.
ghost use Rattle.std.specs.Prelude.{◌≡◌};
ghost use Rattle.refusals.specs.Said.{said_number};
ghost use Rattle.shapes.specs.Questions.{four_sides};
ghost use Rattle.grid.specs.Strips.{links_of, strip_from};
ghost use Rattle.counts.specs.Counts.{counts_of};
ghost use Rattle.cells.specs.Windows.{cell_of, cell_number};

use cells::windows::window_cell;
use counts::counts::distinct_counts;
use grid::strips::strip_links;
use refusals::refusals::answer_number;

// The links of the strip of that width whose first column is left (document 01, 'Strips and links').
#[unsafe(no_mangle)]
pub extern "C" fn colourway_strip_links(
    text: &[u8],
    rows: usize,
    columns: usize,
    width: usize,
    left: usize,
    links: &mut [u16],
) -> u8
    ensures number { result ≡ said_number
        (links_of text.now (strip_from rows columns width left) links.old).said }
    ensures links_after { links.new
        ≡ (links_of text.now (strip_from rows columns width left) links.old).buffer }
{
    answer_number(&strip_links(text, rows, columns, width, left, links))
}

// The number of different symbols in every window of that size (document 01, 'Tallies').
#[unsafe(no_mangle)]
pub extern "C" fn colourway_distinct_counts(
    text: &[u8],
    rows: usize,
    columns: usize,
    height: usize,
    width: usize,
    counts: &mut [u16],
) -> u8
    ensures number { result ≡ said_number
        (counts_of text.now (four_sides rows columns height width) counts.old).said }
    ensures counts_after { counts.new
        ≡ (counts_of text.now (four_sides rows columns height width) counts.old).buffer }
{
    answer_number(&distinct_counts(text, rows, columns, height, width, counts))
}

// The symbol in cell (i, j) of the window at corner (row, column), or 256 where the cell lies past the text's end.
#[unsafe(no_mangle)]
pub extern "C" fn colourway_window_cell(
    text: &[u8],
    row_width: u8,
    row: u8,
    column: u8,
    i: u8,
    j: u8,
) -> u16
    ensures { result ≡ cell_number (cell_of text.now row_width row column i j) }
{
    window_cell(text, row_width, row, column, i, j).map_or(256, u16::from)
}
