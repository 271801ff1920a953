// Document 01's conditions 2, 3, 4 and 5 on sides, cells and corners: every operation asks them in this order.
ghost use Rattle.std.specs.Prelude.{◌≡◌, ◌+◌, ◌*◌, ◌≤◌, leb};
ghost use Rattle.shapes.specs.Shapes.{good_side_test, good_sides_test, good_cells_test, fits, corner_inside_test};
ghost use Rattle.shapes.specs.Shapes.{across, down};
ghost use Rattle.refusals.specs.Said.{outcome_said, ◌then◌};
ghost use Rattle.shapes.specs.Questions.{grid_of, sides_said, grid_said, size_said, text_said};

use refusals::refusals::{Reason, Refusal};

// The sides of a text and of a window in it.
#[derive(Clone, Copy, Debug, PartialEq, Eq)]
pub struct Shape {
    pub rows: usize,
    pub columns: usize,
    pub height: usize,
    pub width: usize,
}

// A side is from 1 to 255.
fn good_side(n: usize) -> bool
    ensures { result ≡ good_side_test n }
{
    1 <= n && n <= 255
}

// The cells are rows × columns in number (3). No product is formed that could be too large.
pub fn good_cells(cells: usize, rows: usize, columns: usize) -> bool
    ensures { result ≡ good_cells_test cells rows columns }
{
    if columns == 0 {
        return cells == 0;
    }
    cells % columns == 0 && cells / columns == rows
}

// A part of that size at that place ends within the whole.
fn part_inside(whole: usize, part: usize, at: usize) -> bool
    ensures { result ≡ leb (at + part) whole }
{
    part <= whole && at <= whole - part
}

// 3: cells given are not rows × columns in number.
#[tactic(auto, unfolding(crate::specs::Questions::grid_said))]
pub fn grid_outcome(cells: &[u8], rows: usize, columns: usize) -> Result<(), Refusal>
    ensures { outcome_said result ≡ grid_said (grid_of cells.now rows columns) }
{
    Reason::CellCount.unless(good_cells(cells.len(), rows, columns))
}

impl Shape {
    // Every side of a text and of a window is good (2).
    pub fn good_sides(self) -> bool
        ensures { result ≡ good_sides_test self.rows self.columns self.height self.width }
    {
        good_side(self.rows)
            && good_side(self.columns)
            && good_side(self.height)
            && good_side(self.width)
    }

    // A window is neither taller nor wider than the text (4).
    pub fn window_fits(self) -> bool
        ensures { result ≡ fits self.rows self.columns self.height self.width }
    {
        self.height <= self.rows && self.width <= self.columns
    }

    // The corner is not beyond the last row and column (5).
    pub fn corner_inside(self, row: usize, column: usize) -> bool
        ensures { result ≡ corner_inside_test self.rows self.columns self.height self.width row column }
    {
        part_inside(self.rows, self.height, row) && part_inside(self.columns, self.width, column)
    }

    // How many windows there are across, one for each column in which one may begin.
    pub fn across(self) -> usize
        requires { (self.width ≤ self.columns) × (self.columns ≤ 255) }
        ensures { result ≡ across self }
    {
        self.columns + 1 - self.width
    }

    // And how many down.
    pub fn down(self) -> usize
        requires { (self.height ≤ self.rows) × (self.rows ≤ 255) }
        ensures { result ≡ down self }
    {
        self.rows + 1 - self.height
    }

    // And in all.
    pub fn windows(self) -> usize
        requires { (self.rows ≤ 255) × (self.columns ≤ 255) × (self.height ≤ self.rows) × (self.width ≤ self.columns) }
        ensures { result ≡ down self * across self }
    {
        self.down() * self.across()
    }

    // 2: a side is 0 or above 255.
    #[tactic(auto, unfolding(crate::specs::Questions::sides_said))]
    pub fn sides_outcome(self) -> Result<(), Refusal>
        ensures { outcome_said result ≡ sides_said self }
    {
        Reason::SideRange.unless(self.good_sides())
    }

    // 4: the pattern is taller or wider than the text.
    #[tactic(auto, unfolding(crate::specs::Questions::size_said))]
    pub fn size_outcome(self) -> Result<(), Refusal>
        ensures { outcome_said result ≡ size_said self }
    {
        Reason::TooLarge.unless(self.window_fits())
    }

    // 2, then what is said of the cells, then 4.
    pub fn in_order(self, cells: Result<(), Refusal>) -> Result<(), Refusal>
        ensures { outcome_said result ≡ sides_said self then outcome_said cells then size_said self }
    {
        self.sides_outcome()?;
        cells?;
        self.size_outcome()
    }

    // 2, 3 and 4 in this order, of a text alone and the sides of a window in it.
    #[tactic(auto, unfolding(crate::specs::Questions::text_said))]
    pub fn text_outcome(self, text: &[u8]) -> Result<(), Refusal>
        ensures { outcome_said result ≡ text_said text.now self }
    {
        self.in_order(grid_outcome(text, self.rows, self.columns))
    }
}
