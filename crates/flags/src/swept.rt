// The flags of a strip's windows from the top down, by the sweep, as far as to a match below which links serve. In most
// strips few windows match or none, and there nothing is made that only many matches would repay.
ghost use Rattle.std.specs.Prelude.{◌≡◌, true, ◌+◌, ◌*◌, ◌≤◌, ◌<◌, length, get_or};
ghost use Rattle.shapes.specs.Shapes.{across, down};
ghost use Rattle.cells.specs.Windows.{strip_at};
ghost use Rattle.prefixes.specs.Prefixes.{suffix};
ghost use Rattle.linked.specs.Run.{flag_by_end};
ghost use Rattle.sweep.specs.Sweep.{OwnSoFar, RunAt, SweepAt, column_strip};
ghost use Rattle.alike.specs.Pairs.{AlikePairs};
ghost use Rattle.flags.specs.Flags.Strips.{Ready};
ghost use Rattle.flags.specs.Flags.Swept.{ToMatch};

use alike::pairs::Pair;
use linked::run::{RunFlag, flag_by};
use placed::pattern::Pattern;
use rows::run::{FirstEnd, Run};
use shapes::shapes::Shape;
use shapes::tables::table;
use sieve::pairs::pairs_pass;
use sweep::windows::window_end;

// The flag of the window at row top, and where the run stands behind it. Sizes first, then the pairs: what they tell is
// not compared, and the run passes it by.
fn swept_flag<P: Pattern>(
    text: &[u8],
    pattern: P,
    first: &[usize; 256],
    pairs: &[Pair; 8],
    symbols: u16,
    count: u16,
    s: Shape,
    left: usize,
    last: &mut [usize; 256],
    own: &mut [FirstEnd; 256],
    run: Run,
    top: usize,
) -> RunFlag
    requires { SweepAt text.now s (P.cells pattern) first.now own.old × (left < across s)
        × (top < down s) × AlikePairs (P.cells pattern) s.columns s.width pairs.now
        × RunAt text.now (column_strip s left) (P.cells pattern) last.old run top s.height }
    ensures flag { result.flag ≡ flag_by_end (P.cells pattern) symbols count
        (suffix (strip_at text.now s.columns left s.width) (top * s.width)) }
    ensures run { RunAt text.now (column_strip s left) (P.cells pattern) last.new result.run (top + 1) s.height }
    ensures own_so_far { OwnSoFar (P.cells pattern) s.width (down s) own.new }
{
    let told = RunFlag { run, flag: 0 };
    if count != symbols {
        return told;
    }
    if !pairs_pass(text, pattern, pairs, s, left, top) {
        return told;
    }
    let r = window_end(text, pattern, s, left, first, last, own, run, top);
    RunFlag {
        run: r.run,
        flag: flag_by(r.end, pattern.len()),
    }
}

// How many matches repay the links of a strip. Links cost a time for each cell of the strip, and save one for each
// window that matches: one for sixteen cells, or, in a tall pattern, as many as have twice the strip's cells. Windows of
// one row have no cell in common, and no number of them repays links.
fn matches_repaying(s: Shape) -> usize
    requires { (1 ≤ s.height) × (s.rows ≤ 255) × (s.width ≤ 255) }
    ensures { result ≤ 65025 }
{
    if s.height == 1 {
        return s.rows;
    }
    (s.rows * s.width / 16).min(2 * s.rows / s.height)
}

// Whether the windows below the one at row top, whose flag stands at place k, are better found by links: where it
// matches, so does the one n rows above it, and there are n windows below it, n being the number that repays links.
// Then those between the two are likely to match too, and those below.
fn links_serve(flags: &[u8], s: Shape, across: usize, k: usize, top: usize) -> bool
    requires { (1 ≤ s.height) × (s.height ≤ 255) × (s.rows ≤ 255) × (s.width ≤ 255) × (across ≤ 255)
        × (k < length flags.now) × (top * across ≤ k) × (top ≤ 255) }
    ensures { result ≡ true → get_or flags.now k 0 ≡ 1 }
{
    if flags[k] != 1 {
        return false;
    }
    let n = matches_repaying(s);
    n <= top && top + n + s.height <= s.rows && flags[k - n * across] == 1
}

// The flags of the windows at column left, down to a match below which links serve, or of all of them; how many. Never
// a part of its caller: there the loop's numbers lie on the stack, and a window that its count tells takes twice as
// long.
#[inline(never)]
pub fn flags_to_match<P: Pattern>(
    text: &[u8],
    pattern: P,
    first: &[usize; 256],
    pairs: &[Pair; 8],
    symbols: u16,
    s: Shape,
    left: usize,
    counts: &[u16],
    own: &mut [FirstEnd; 256],
    flags: &mut [u8],
) -> usize
    requires { Ready text.now (P.cells pattern) symbols s counts.now (s.rows * s.width) (length flags.old)
        × SweepAt text.now s (P.cells pattern) first.now own.old × (left < across s)
        × AlikePairs (P.cells pattern) s.columns s.width pairs.now }
    ensures to_match { ToMatch text.now (P.cells pattern) s left result flags.old flags.new }
    ensures own_so_far { OwnSoFar (P.cells pattern) s.width (down s) own.new }
{
    let across = s.across();
    let down = s.down();
    let mut last = table(0);
    let mut run = Run { row: 0, reached: 0 };
    for top in 0..down {
        let k = top * across + left;
        let r = swept_flag(
            text, pattern, first, pairs, symbols, counts[k], s, left, &mut last, own, run, top,
        );
        flags[k] = r.flag;
        run = r.run;
        if links_serve(flags, s, across, k, top) {
            return top + 1;
        }
    }
    down
}
