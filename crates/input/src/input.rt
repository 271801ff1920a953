// The program's own refusals, in document 01's order: 1, 2, 8, 3, 4.
ghost use Rattle.std.specs.Prelude.{◌≡◌, ◌≤◌};
ghost use Rattle.refusals.specs.Said.{outcome_said};
ghost use Rattle.input.specs.Input.{few_cells_test, cells_given_said, sizes_said, input_said};

use refusals::refusals::{Reason, Refusal};
use shapes::shapes::Shape;

// A text or a pattern may have so many cells.
const MOST_CELLS: usize = 16384;

// Neither the text nor the pattern has more cells than that.
fn few_cells(cells: usize, pattern_cells: usize) -> bool
    ensures { result ≡ few_cells_test cells pattern_cells }
{
    cells <= MOST_CELLS && pattern_cells <= MOST_CELLS
}

// 8, then 3: cells and pattern_cells are what the sides ask for, given is what stands behind the sizes.
#[tactic(auto, unfolding(crate::specs::Input::cells_given_said))]
fn count_outcome(cells: usize, pattern_cells: usize, given: usize) -> Result<(), Refusal>
    requires { (cells ≤ 65025) × (pattern_cells ≤ 65025) }
    ensures { outcome_said result ≡ cells_given_said cells pattern_cells given }
{
    let many = Reason::TooManyCells.unless(few_cells(cells, pattern_cells));
    let wrong = Reason::CellCount.unless(given == cells + pattern_cells);
    many.and(wrong)
}

// 2, then 8 and 3, then 4, of sides and the number of bytes behind them.
#[tactic(auto, unfolding(crate::specs::Input::sizes_said))]
fn sizes_outcome(s: Shape, given: usize) -> Result<(), Refusal>
    ensures { outcome_said result ≡ sizes_said s given }
{
    s.sides_outcome()?;
    count_outcome(s.rows * s.columns, s.height * s.width, given)?;
    s.size_outcome()
}

// By what an input is refused before it is searched.
pub fn input_outcome(input: &[u8]) -> Result<(), Refusal>
    ensures { outcome_said result ≡ input_said input.now }
{
    let [rows, columns, height, width, cells @ ..] = input else {
        return Err(Refusal::Plain(Reason::SizesMissing));
    };
    let s = Shape {
        rows: usize::from(*rows),
        columns: usize::from(*columns),
        height: usize::from(*height),
        width: usize::from(*width),
    };
    sizes_outcome(s, cells.len())
}
