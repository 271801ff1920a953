// From window to window down a strip.
ghost use Rattle.std.specs.Prelude.{◌-◌, ◌*◌, ◌≤◌, ◌<◌};
ghost use Rattle.reach.specs.Reach.{ReachAt};
ghost use Rattle.sweep.specs.Sweep.{NextAt, NextIs};

use grid::strips::Strip;
use placed::pattern::Pattern;
use reach::reach::reach;
use rows::run::{FirstEnd, Run};

// Where a run down a strip stands behind a window; and the window's first end, with the first position that mismatches
// with it, or 0 where no mismatch ends in the window. No Option, as in `FirstEnd`.
#[derive(Clone, Copy)]
pub struct Step {
    pub run: Run,
    pub end: usize,
    pub earlier: usize,
}

// The first end of a window that agrees up to column j of row line of the strip.
#[inline]
pub fn compared<P: Pattern, T: Pattern>(
    text: T,
    s: Strip,
    pattern: P,
    first: &[usize; 256],
    last: &mut [usize; 256],
    top: usize,
    height: usize,
    line: usize,
    j: usize,
) -> Step
    requires { ReachAt (T.cells text) s (P.cells pattern) first.now last.old top height line j
        × (top * s.width ≤ 65025) }
    ensures { NextIs (T.cells text) s (P.cells pattern) top top height result last.new }
{
    let r = reach(text, s, pattern, first, last, top, height, line, j);
    let reached = r.place;
    Step {
        run: Run { row: top, reached },
        end: reached - top * s.width,
        earlier: r.earlier,
    }
}

// The first end of the window at row top: it is the pattern's own where that lies in what agreed of the last window
// compared, and else what agreed of that one agrees of this one too.
#[inline]
pub fn next_end<P: Pattern, T: Pattern>(
    text: T,
    s: Strip,
    pattern: P,
    first: &[usize; 256],
    last: &mut [usize; 256],
    own: &[FirstEnd; 256],
    run: Run,
    top: usize,
    height: usize,
) -> Step
    requires { NextAt (T.cells text) s (P.cells pattern) first.now last.old own.now run top height }
    ensures { NextIs (T.cells text) s (P.cells pattern) run.row top height result last.new }
{
    let width = s.width;
    let start = top * width;
    let reached = run.reached;
    if reached <= start {
        return compared(text, s, pattern, first, last, top, height, top, 0);
    }
    let k = top - run.row;
    let end = own[k].end;
    if end < reached - start {
        return Step {
            run,
            end,
            earlier: own[k].earlier,
        };
    }
    compared(
        text,
        s,
        pattern,
        first,
        last,
        top,
        height,
        reached / width,
        reached % width,
    )
}
