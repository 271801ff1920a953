// What the check answers of a listing that keeps the rules.

// How many windows stand as found, and how many as refused.
#[derive(Clone, Copy, Debug, PartialEq, Eq)]
pub struct Tally {
    pub found: u16,
    pub refused: u16,
}
