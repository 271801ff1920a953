// A pattern against the window of its size at a corner of a text: where they part first, and what is answered of a
// window. The window is read in place, row by row, through its view.
ghost use Rattle.std.specs.Prelude.{◌≡◌, ◌<◌, length, replicate};
ghost use Rattle.prefixes.specs.Prefixes.{EndIs};
ghost use Rattle.prefixes.specs.State.{FirstPlaces};
ghost use Rattle.matching.specs.Compare.{cell_of_pattern, verdict_between};
ghost use Rattle.matching.specs.Compared.{pattern_seen, window_seen, cells_seen};

use crate::compared::Compared;
use mapping::bijections::Bijection;
use reach::reach::Far;
use rows::rows::{earlier_by, part_end};

// What is answered of a window.
#[derive(Clone, Copy)]
pub enum Verdict {
    // With the bijection that pairs just the pattern's symbols with the window's.
    Match(Bijection),
    // Two cells, by position row by row in the pattern, that are alike on one side only.
    Mismatch {
        alike_in_pattern: bool,
        earlier: usize,
        later: usize,
    },
}

// The position at which a mismatch of the window ends first, with the mismatch's earlier position; where none ends, the
// number of positions, with 0. The window is a strip of its own here, so its positions are the strip's places.
pub fn first_end(c: Compared, first: &[usize; 256], last: &mut [usize; 256]) -> Far
    requires { FirstPlaces (pattern_seen c) (length c.pattern.now) first.now × (last.old ≡ replicate 256 0) }
    ensures { EndIs (pattern_seen c.entry) (window_seen c.entry) (cells_seen c.entry) result.place result.earlier }
{
    let Compared {
        window,
        pattern,
        ..
    } = c;
    let v = window.place;
    let mut from = 0;
    for i in 0..v.height {
        let row = window.row_cells(i);
        let j = part_end(pattern, row, 0, v.width, first, last, 0, from);
        if j < v.width {
            let x = usize::from(row[j]);
            return Far {
                place: from + j,
                earlier: earlier_by(pattern, first, 0, last[x], from + j),
            };
        }
        from += v.width;
    }
    Far {
        place: from,
        earlier: 0,
    }
}

// The mismatch of two positions; the pattern's two symbols tell the side.
pub fn mismatch_between(pattern: &[u8], earlier: usize, later: usize) -> Verdict
    requires { (earlier < length pattern.now) × (later < length pattern.now) }
    ensures { result ≡ verdict_between (cell_of_pattern pattern.now) earlier later }
{
    let a = pattern[earlier];
    let b = pattern[later];
    Verdict::Mismatch {
        alike_in_pattern: a == b,
        earlier,
        later,
    }
}
