// From window to window down a strip of a text, with the pattern's own ends made as far as a window asks for them.
ghost use Rattle.std.specs.Prelude.{◌+◌, ◌-◌, ◌*◌, ◌≤◌, ◌<◌, length};
ghost use Rattle.shapes.specs.Shapes.{across, down};
ghost use Rattle.sweep.specs.Sweep.{RunAt, NextIs, OwnSoFar, PatternAt, SweepAt, column_strip, own_at};

use crate::own::lengthen_ends;
use crate::steps::{Step, compared, next_end};
use grid::strips::Strip;
use placed::pattern::Pattern;
use rows::run::{FirstEnd, Run};
use shapes::shapes::Shape;

// The own ends are made as far as the last window compared agrees.
pub fn ready_ends<P: Pattern>(
    pattern: P,
    s: Shape,
    first: &[usize; 256],
    own: &mut [FirstEnd; 256],
    run: Run,
)
    requires { PatternAt s (P.cells pattern) first.now own.old × (run.row ≤ 255)
        × (run.row * s.width ≤ run.reached)
        × (run.reached ≤ run.row * s.width + length (P.cells pattern)) }
    ensures own_so_far { OwnSoFar (P.cells pattern) s.width (down s) own.new }
    ensures agreed_bound { run.reached - run.row * s.width ≤ (own_at own.new 0).end }
{
    let agreed = run.reached - run.row * s.width;
    if agreed <= own[0].end {
        return;
    }
    let windows = s.down();
    lengthen_ends(pattern, s.height, s.width, windows, first, own, agreed);
}

// The first end of the window at row top of the strip at column left. Where nothing of it was looked at yet, as of most
// windows of most texts, it is compared; the own ends are not asked for.
#[inline(always)]
pub fn window_end<P: Pattern>(
    text: &[u8],
    pattern: P,
    s: Shape,
    left: usize,
    first: &[usize; 256],
    last: &mut [usize; 256],
    own: &mut [FirstEnd; 256],
    run: Run,
    top: usize,
) -> Step
    requires { SweepAt text.now s (P.cells pattern) first.now own.old × (left < across s) × (top < down s)
        × RunAt text.now (column_strip s left) (P.cells pattern) last.old run top s.height }
    ensures next_is { NextIs text.now (column_strip s left) (P.cells pattern) run.row top s.height result last.new }
    ensures own_so_far { OwnSoFar (P.cells pattern) s.width (down s) own.new }
{
    let t = Strip {
        rows: s.rows,
        columns: s.columns,
        left,
        width: s.width,
    };
    if run.reached <= top * s.width {
        return compared(text, t, pattern, first, last, top, s.height, top, 0);
    }
    ready_ends(pattern, s, first, own, run);
    next_end(text, t, pattern, first, last, own, run, top, s.height)
}
