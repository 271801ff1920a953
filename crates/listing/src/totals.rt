// What a listing adds up to. One scale's windows have 16 bits, those of all scales together more.

// The windows found and refused, and the length of their listing in bytes.
#[derive(Clone, Copy, Debug, PartialEq, Eq)]
pub struct Totals<N> {
    pub found: N,
    pub refused: N,
    pub length: usize,
}
