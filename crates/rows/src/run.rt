// What a run down a strip hands from window to window.

// Where a run down a strip stands: the last window that was compared begins at row, and agrees up to place reached of
// the strip.
#[derive(Clone, Copy)]
pub struct Run {
    pub row: usize,
    pub reached: usize,
}

// The first end of a window, with the first position that mismatches with it; where no mismatch ends in the window, the
// number of its positions, with 0. No Option: what is held against the number of positions is the end, and a table of
// 256 of them is filled for each pattern.
#[derive(Clone, Copy)]
pub struct FirstEnd {
    pub end: usize,
    pub earlier: usize,
}
