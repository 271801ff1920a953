// The links of a strip: for each position the distance back to the nearest earlier position with the same symbol.
ghost use Rattle.std.specs.Prelude.{◌≡◌, ℕ, ◌+◌, ◌-◌, ◌*◌, ◌≤◌, ◌<◌, eqb, length};
ghost use Rattle.theory.specs.Test.{pick};
ghost use Rattle.theory.specs.Store.{stored_rows};
ghost use Rattle.refusals.specs.Said.{outcome_said, filled};
ghost use Rattle.cells.specs.Windows.{cells_of_row};
ghost use Rattle.grid.specs.Strips.{link, links_said, links_of, strip_from, strip_symbols, StripOf, LastPlaces};
ghost use Rattle.grid.specs.Strips.{RowFrom, Linkable, LinkedRow};

use cells::windows::WindowPlace;
use refusals::refusals::{Reason, Refusal};
use shapes::shapes::Shape;
use shapes::tables::table;
use view::WindowView;

// All rows of the columns from left on, as many as the strip is wide.
#[derive(Clone, Copy)]
pub struct Strip {
    pub rows: usize,
    pub columns: usize,
    pub left: usize,
    pub width: usize,
}

impl Strip {
    // Row i of the strip, as a part of the text: the strip is the window at its first column that is as tall as the
    // text.
    pub fn row_cells(self, text: &[u8], i: usize) -> &[u8]
        requires { StripOf self (length text.now) × (i < self.rows) }
        ensures { result.now ≡ cells_of_row text.now self.columns i self.left self.width }
    {
        let place = WindowPlace {
            columns: self.columns,
            row: 0,
            column: self.left,
            height: self.rows,
            width: self.width,
        };
        WindowView { text, place }.row_cells(i)
    }
}

// The distance from a place back to the last one, which is given as one more than it, or as 0 where there is none: a
// table of `Option` takes three times as long a cell (2.9 ns for 0.9).
fn distance(last: u16, place: usize) -> u16
    requires { (last ≤ place) × (place < 65535) }
    ensures { result ≡ pick (eqb last 0) 0 (place + 1 - last) }
{
    if last == 0 {
        return 0;
    }
    // Of 16 bits, by `as`: `try_from` would have a way out that no value takes.
    (place + 1 - usize::from(last)) as u16
}

// The links of one row of a strip, whose first position is base. The last places are those before the row, and
// afterwards those with it. They are of 16 bits, likewise by `as`.
fn link_row(row: &[u8], base: usize, last: &mut [u16; 256], links: &mut [u16])
    requires { Linkable base row.now last.old (length links.old) }
    ensures { (s : ℕ → ℕ) → RowFrom s base row.now → LastPlaces s base last.old
        → LinkedRow s base (length row.now) links.old last.new links.new }
{
    for (j, &v) in row.iter().enumerate() {
        let v = usize::from(v);
        let place = base + j;
        links[place] = distance(last[v], place);
        last[v] = (place + 1) as u16;
    }
}

// The links of a strip, row by row. As a part of its callers its loop was 48 bytes of code, whose jump back lies at the
// border of 32 bytes in every second place that a linker may choose, and there took up to twice the time.
#[inline(never)]
fn link_rows(text: &[u8], t: Strip, links: &mut [u16])
    requires { StripOf t (length text.now) × (t.rows * t.width ≤ length links.old) }
    ensures { links.new ≡ stored_rows (link (strip_symbols text.now t)) (λ i j. i * t.width + j)
        t.rows t.width links.old }
{
    let mut last = table(0);
    for i in 0..t.rows {
        link_row(t.row_cells(text, i), i * t.width, &mut last, links);
    }
}

// By what the question is refused: a strip is as tall as the text, and room is the length of the links buffer.
#[tactic(auto, unfolding(crate::specs::Strips::links_said))]
fn strip_outcome(text: &[u8], t: Strip, room: usize) -> Result<(), Refusal>
    ensures { outcome_said result ≡ links_said text.now t room }
{
    let s = Shape {
        rows: t.rows,
        columns: t.columns,
        height: t.rows,
        width: t.width,
    };
    s.text_outcome(text)?;
    Reason::CornerOutside.unless(s.corner_inside(0, t.left))?;
    Reason::LinksBufferShort.unless(t.rows * t.width <= room)
}

// Writes the links of the strip of that width whose first column is left, row by row.
#[tactic(auto, unfolding(crate::specs::Strips::links_of))]
pub fn strip_links(
    text: &[u8],
    rows: usize,
    columns: usize,
    width: usize,
    left: usize,
    links: &mut [u16],
) -> Result<(), Refusal>
    ensures { filled result links.new
        ≡ links_of text.now (strip_from rows columns width left) links.old }
{
    let t = Strip {
        rows,
        columns,
        left,
        width,
    };
    strip_outcome(text, t, links.len())?;
    link_rows(text, t, links);
    Ok(())
}
