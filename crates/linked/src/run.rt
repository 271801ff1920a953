// From window to window down a strip, by the strip's links: how far a window agrees with the pattern, and its flag.
ghost use Rattle.std.specs.Prelude.{◌≡◌, ◌<◌, ltb, length};
ghost use Rattle.theory.specs.Test.{pick};
ghost use Rattle.linked.specs.Run.{linked_test, CompareAt, EndsBy, WindowAsked, WindowEnds, WindowFlagged};

use placed::pattern::Pattern;
use rows::run::{FirstEnd, Run};

// Where a run down a strip stands behind a window, and the position at which a mismatch of the window ends first, or
// the pattern's length.
#[derive(Clone, Copy)]
pub struct RunEnd {
    pub run: Run,
    pub end: usize,
}

// The same with the window's flag. A window of another count is passed by, so it has no end.
#[derive(Clone, Copy)]
pub struct RunFlag {
    pub run: Run,
    pub flag: u8,
}

// Whether no mismatch ends at position p, where none ends before it: a is the pattern's symbol there, and d the link of
// the window's place. A link that leads out of the window, like no link, 0, says that the window's symbol is new there:
// then the pattern's has to be.
fn linked_at<P: Pattern>(pattern: P, first: &[usize; 256], p: usize, d: usize, a: u8) -> bool
    requires { p < length (P.cells pattern) }
    ensures { result ≡ linked_test (P.cells pattern) first.now p d a }
{
    if 0 < d && d <= p {
        return pattern.at(p - d) == a;
    }
    first[usize::from(a)] == p
}

// The first position from from on at which a mismatch ends, or the pattern's length; none ends before it. The window
// begins at place start of the strip.
fn linked_end<P: Pattern>(
    pattern: P,
    first: &[usize; 256],
    links: &[u16],
    start: usize,
    from: usize,
) -> usize
    requires { CompareAt (P.cells pattern) first.now links.now start from }
    ensures { EndsBy (P.cells pattern) links.now start from result }
{
    let n = pattern.len();
    for p in from..n {
        let a = pattern.at(p);
        if !linked_at(pattern, first, p, usize::from(links[start + p]), a) {
            return p;
        }
    }
    n
}

// The window at row top, where a run stands before it: its end is the pattern's own where that lies in what agreed of
// the last window compared, and else what agreed of that one agrees of this one too.
fn next_linked<P: Pattern>(
    pattern: P,
    first: &[usize; 256],
    own: &[FirstEnd; 256],
    links: &[u16],
    width: usize,
    run: Run,
    top: usize,
) -> RunEnd
    requires { WindowAsked (P.cells pattern) first.now own.now links.now width run top }
    ensures { WindowEnds (P.cells pattern) links.now width run top result }
{
    let start = top * width;
    let from = run.reached.saturating_sub(start);
    let end = own[top - run.row].end;
    if end < from {
        return RunEnd { run, end };
    }
    let end = linked_end(pattern, first, links, start, from);
    RunEnd {
        run: Run {
            row: top,
            reached: start + end,
        },
        end,
    }
}

// The flag of a window of n positions whose first mismatch ends at end, which is n where it has none.
pub fn flag_by(end: usize, n: usize) -> u8
    ensures { result ≡ pick (ltb end n) 0 1 }
{
    u8::from(end >= n)
}

// The flag of the window at row top. Sizes first: a window of another count is 0, and nothing else of it is looked at.
pub fn next_flag<P: Pattern>(
    pattern: P,
    first: &[usize; 256],
    own: &[FirstEnd; 256],
    symbols: u16,
    count: u16,
    links: &[u16],
    width: usize,
    run: Run,
    top: usize,
) -> RunFlag
    requires { WindowAsked (P.cells pattern) first.now own.now links.now width run top }
    ensures { WindowFlagged (P.cells pattern) symbols count links.now width run top result }
{
    if count != symbols {
        return RunFlag { run, flag: 0 };
    }
    let r = next_linked(pattern, first, own, links, width, run, top);
    RunFlag {
        run: r.run,
        flag: flag_by(r.end, pattern.len()),
    }
}
