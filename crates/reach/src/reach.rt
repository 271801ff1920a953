// How far a window of a strip agrees with the pattern, from a place on up to which it is known to agree.
ghost use Rattle.std.specs.Prelude.{◌+◌, ◌-◌, ◌<◌};
ghost use Rattle.reach.specs.Reach.{ReachAt, Reached};

use grid::strips::Strip;
use placed::pattern::Pattern;
use rows::rows::{earlier_by, part_end};

// The place in the strip at which a mismatch of a window ends first, with the mismatch's earlier position in the
// window; or the place at which the window ends, with 0. No Option: up to which place the window agrees is asked in
// both cases.
#[derive(Clone, Copy)]
pub struct Far {
    pub place: usize,
    pub earlier: usize,
}

// How far the window of height rows from row top on agrees: it is known to agree up to column j of row line of the
// strip.
pub fn reach<P: Pattern, T: Pattern>(
    text: T,
    s: Strip,
    pattern: P,
    first: &[usize; 256],
    last: &mut [usize; 256],
    top: usize,
    height: usize,
    line: usize,
    j: usize,
) -> Far
    requires { ReachAt (T.cells text) s (P.cells pattern) first.now last.old top height line j }
    ensures { Reached (T.cells text) s (P.cells pattern) top height result last.new }
{
    let width = s.width;
    let start = top * width;
    let mut column = j;
    for row in line..top + height {
        let at = row * width + column;
        let begin = row * s.columns + s.left + column;
        let part = width - column;
        let r = part_end(pattern, text, begin, part, first, last, start, at - start);
        if r < part {
            let x = usize::from(text.at(begin + r));
            return Far {
                place: at + r,
                earlier: earlier_by(pattern, first, start, last[x], at - start + r),
            };
        }
        column = 0;
    }
    Far {
        place: (top + height) * width,
        earlier: 0,
    }
}
