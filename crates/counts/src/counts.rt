// The number of different symbols in each window of a text. The occurrences of each symbol slide down a strip, one row
// out and one row in for each window, and begin afresh in the next strip.
ghost use Rattle.std.specs.Prelude.{◌≡◌, [], ◌+◌, ◌*◌, ◌≤◌, ◌<◌, length};
ghost use Rattle.theory.specs.Store.{stored, stored_rows};
ghost use Rattle.occurrences.specs.Occurrences.{Tracks};
ghost use Rattle.refusals.specs.Said.{outcome_said, filled};
ghost use Rattle.shapes.specs.Questions.{four_sides};
ghost use Rattle.shapes.specs.Shapes.{ShapeOf, across, down};
ghost use Rattle.counts.specs.Counts.{counts_said, counts_of, strip_cells, count_in};

use grid::strips::Strip;
use occurrences::occurrences::Occurrences;
use refusals::refusals::{Reason, Refusal};
use shapes::shapes::Shape;

// The symbols of the strip's topmost window enter.
fn add_window(occurrences: &mut Occurrences, text: &[u8], s: Shape, left: usize)
    requires { ShapeOf s (length text.now) × (left + s.width ≤ s.columns) × Tracks occurrences.old [] }
    ensures { Tracks occurrences.new (strip_cells text.now s 0 left s.height) }
{
    let strip = Strip {
        rows: s.rows,
        columns: s.columns,
        left,
        width: s.width,
    };
    for n in 0..s.height {
        occurrences.add_row(strip.row_cells(text, n));
    }
}

// From the window at row top to the one below it, if there is one: the top row leaves, the next one enters.
fn slide(occurrences: &mut Occurrences, text: &[u8], s: Shape, left: usize, top: usize)
    requires { ShapeOf s (length text.now) × (left + s.width ≤ s.columns) × (top + s.height ≤ s.rows)
        × Tracks occurrences.old (strip_cells text.now s top left s.height) }
    ensures { top + s.height < s.rows
        → Tracks occurrences.new (strip_cells text.now s (top + 1) left s.height) }
{
    let next = top + s.height;
    if next < s.rows {
        let strip = Strip {
            rows: s.rows,
            columns: s.columns,
            left,
            width: s.width,
        };
        occurrences.replace_row(strip.row_cells(text, top), strip.row_cells(text, next));
    }
}

// The counts of the windows at column left, from the top down. The lent occurrences are cleared first: what an earlier
// strip left in them counts for nothing.
fn strip_counts(
    occurrences: &mut Occurrences,
    text: &[u8],
    s: Shape,
    left: usize,
    counts: &mut [u16],
)
    requires { ShapeOf s (length text.now) × (left < across s) × (down s * across s ≤ length counts.old) }
    ensures { counts.new ≡ stored (count_in text.now s) (λ top. top * across s + left) (down s) counts.old }
{
    let width = s.across();
    let height = s.down();
    occurrences.clear();
    add_window(occurrences, text, s, left);
    for top in 0..height {
        // At most 256, by `as`: `try_from` would have a way out that no value takes.
        counts[top * width + left] = occurrences.size as u16;
        slide(occurrences, text, s, left, top);
    }
}

// The counts of all windows, strip by strip.
fn all_counts(text: &[u8], s: Shape, counts: &mut [u16])
    requires { ShapeOf s (length text.now) × (down s * across s ≤ length counts.old) }
    ensures { counts.new ≡ stored_rows (count_in text.now s) (λ left top. top * across s + left)
        (across s) (down s) counts.old }
{
    let width = s.across();
    let mut occurrences = Occurrences::none();
    for left in 0..width {
        strip_counts(&mut occurrences, text, s, left, counts);
    }
}

// By what the question is refused: room is the length of the counts buffer.
#[tactic(auto, unfolding(crate::specs::Counts::counts_said))]
fn counts_outcome(text: &[u8], s: Shape, room: usize) -> Result<(), Refusal>
    ensures { outcome_said result ≡ counts_said text.now s room }
{
    s.text_outcome(text)?;
    Reason::WindowBufferShort.unless(s.windows() <= room)
}

// Writes the number of different symbols in each window of that size, row by row of corners.
#[tactic(auto, unfolding(crate::specs::Counts::counts_of))]
pub fn distinct_counts(
    text: &[u8],
    rows: usize,
    columns: usize,
    height: usize,
    width: usize,
    counts: &mut [u16],
) -> Result<(), Refusal>
    ensures { filled result counts.new
        ≡ counts_of text.now (four_sides rows columns height width) counts.old }
{
    let s = Shape {
        rows,
        columns,
        height,
        width,
    };
    counts_outcome(text, s, counts.len())?;
    all_counts(text, s, counts);
    Ok(())
}
