// Two cells that spoiled a window: they are alike in the pattern and were not in the window, or the other way round.
// They often spoil the next window too, and to look at them costs less than to compare it.
ghost use Rattle.std.specs.Prelude.{◌≡◌, true, ◌≤◌, ◌<◌, length};
ghost use Rattle.shapes.specs.Shapes.{down};
ghost use Rattle.sieve.specs.Sieve.{Differs, SpoilerOf, StripAsked, no_spoiler};

use alike::pairs::Pair;
use cells::windows::cell_offset;
use placed::pattern::Pattern;
use shapes::shapes::Shape;

// Two cells, and whether they are alike in the pattern.
#[derive(Clone, Copy)]
pub struct Spoiler {
    pub cells: Pair,
    pub alike: bool,
}

impl Spoiler {
    // The corner with itself, which spoils no window.
    pub fn none() -> Spoiler
        ensures { result ≡ no_spoiler }
    {
        Spoiler {
            cells: Pair {
                earlier: 0,
                later: 0,
            },
            alike: true,
        }
    }

    // True only where the window at row top does not match: the two cells are alike in it and not in the pattern, or in
    // the pattern and not in it. Where it is false nothing is said: such a window is compared. The
    // pattern itself is not read: it stands here for the contract.
    pub fn spoils<P: Pattern>(
        self,
        text: &[u8],
        pattern: P,
        s: Shape,
        left: usize,
        top: usize,
    ) -> bool
        requires { StripAsked text.now (P.cells pattern) s left × SpoilerOf (P.cells pattern) s.columns s.width self
            × (top < down s) }
        ensures { result ≡ true → Differs text.now (P.cells pattern) s left top }
    {
        let corner = top * s.columns + left;
        let alike = text[corner + self.cells.earlier] == text[corner + self.cells.later];
        alike != self.alike
    }

    // What is kept behind a window that was compared: its two cells where the mismatch ends at the same position, seen,
    // as that of the window compared before it, and else those that were kept before. Cells that spoil two windows are
    // likely to spoil a third, and their offsets cost two divisions. Where no mismatch ends, later is the pattern's
    // length. The contract says only that they are two cells of the pattern: which, is a matter of time.
    pub fn kept<P: Pattern>(
        self,
        pattern: P,
        columns: usize,
        width: usize,
        earlier: usize,
        later: usize,
        seen: usize,
    ) -> Spoiler
        requires { SpoilerOf (P.cells pattern) columns width self × (0 < width) × (columns ≤ 255)
            × (length (P.cells pattern) ≤ 65025)
            × (later < length (P.cells pattern) → earlier < length (P.cells pattern)) }
        ensures { SpoilerOf (P.cells pattern) columns width result }
    {
        if later != seen || pattern.len() <= later {
            return self;
        }
        Spoiler {
            cells: Pair {
                earlier: cell_offset(columns, width, earlier),
                later: cell_offset(columns, width, later),
            },
            alike: pattern.at(earlier) == pattern.at(later),
        }
    }
}
