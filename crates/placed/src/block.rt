// A block of a pattern as it lies: the positions of one row that show one cell of the pattern. One where it lies as
// it is, as many as the scale where it is enlarged. In a row the next block shows the next cell.

// The symbol of the cell that a block shows, and how many positions show it; the cell's place in the pattern, and the
// position behind the row, or an earlier one: up to there the next blocks show the next cells.
#[derive(Clone, Copy)]
pub struct Block {
    pub symbol: u8,
    pub cells: usize,
    pub place: usize,
    pub stop: usize,
}
