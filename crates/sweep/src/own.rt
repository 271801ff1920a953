// What the pattern says by itself: the first ends of its own windows, made as far as windows ask for them.
ghost use Rattle.std.specs.Prelude.{◌≡◌, ◌*◌, ◌≤◌, ◌<◌, length, get_or};
ghost use Rattle.prefixes.specs.State.{FirstPlaces};
ghost use Rattle.sweep.specs.Sweep.{SidesOf, OwnMismatches, OwnSoFar, own_at};

use crate::steps::next_end;
use grid::strips::Strip;
use placed::pattern::Pattern;
use rows::run::{FirstEnd, Run};
use shapes::tables::table;

// The first ends of the first n of the pattern's own windows, and their earlier positions: window k has the pattern's
// rows from row k to before row rows. It is a run down the pattern as a strip of its own width, with the pattern as its
// text. Where n is 1 nothing is compared. It is no part of its callers' frames: its table of 2 KiB would lie in each of
// them.
#[inline(never)]
pub fn own_ends<P: Pattern>(
    pattern: P,
    height: usize,
    width: usize,
    rows: usize,
    n: usize,
    first: &[usize; 256],
    own: &mut [FirstEnd; 256],
)
    requires { SidesOf (P.cells pattern) height width
        × FirstPlaces (λ k. get_or (P.cells pattern) k 0) (length (P.cells pattern)) first.now
        × (1 ≤ rows) × (rows ≤ height) × (n ≤ rows) }
    ensures { OwnMismatches (P.cells pattern) width (rows * width) n own.new }
{
    let s = Strip {
        rows: height,
        columns: width,
        left: 0,
        width,
    };
    let mut last = table(0);
    own[0] = FirstEnd {
        end: rows * width,
        earlier: 0,
    };
    let mut run = Run {
        row: 1,
        reached: width,
    };
    for top in 1..n {
        let r = next_end(
            pattern,
            s,
            pattern,
            first,
            &mut last,
            own,
            run,
            top,
            rows - top,
        );
        own[top] = FirstEnd {
            end: r.end,
            earlier: r.earlier,
        };
        run = r.run;
    }
}

// Of how many of the pattern's rows the own ends are made, where a window asks for them in agreed positions and they
// were made in fewer: of all, or of twice as many as before or more, so that all times together cost about two of the
// last. The contract says only that they are enough.
fn longer_rows(height: usize, width: usize, made: usize, agreed: usize) -> usize
    requires { (0 < width) × (1 ≤ height) × (made < agreed) × (agreed ≤ height * width) × (height * width ≤ 65025) }
    ensures { (1 ≤ result) × (result ≤ height) × (agreed ≤ result * width) }
{
    let rows = (made + agreed) / width + 1;
    rows.min(height)
}

// The own ends are made in agreed positions or more, for strips of so many windows. The pattern has one own window for
// each row, and in a strip of so many windows the last is fewer rows below the first.
pub fn lengthen_ends<P: Pattern>(
    pattern: P,
    height: usize,
    width: usize,
    windows: usize,
    first: &[usize; 256],
    own: &mut [FirstEnd; 256],
    agreed: usize,
)
    requires { SidesOf (P.cells pattern) height width
        × FirstPlaces (λ k. get_or (P.cells pattern) k 0) (length (P.cells pattern)) first.now
        × OwnSoFar (P.cells pattern) width windows own.old
        × (agreed ≤ length (P.cells pattern)) }
    ensures own_so_far { OwnSoFar (P.cells pattern) width windows own.new }
    ensures agreed_bound { agreed ≤ (own_at own.new 0).end }
{
    let made = own[0].end;
    if agreed <= made {
        return;
    }
    let rows = longer_rows(height, width, made, agreed);
    own_ends(pattern, height, width, rows, rows.min(windows), first, own);
}
