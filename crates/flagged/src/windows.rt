// The flags of all windows, strip by strip.
ghost use Rattle.std.specs.Prelude.{◌≡◌, ◌+◌, ◌*◌, ◌<◌, length, get_or};
ghost use Rattle.prefixes.specs.State.{FirstPlaces};
ghost use Rattle.occurrences.specs.Distinct.{distinct};
ghost use Rattle.theory.specs.Store.{stored_rows};
ghost use Rattle.shapes.specs.Shapes.{across, down};
ghost use Rattle.flags.specs.Flags.{RoomFor, rooms, working, work_after};
ghost use Rattle.shapes.specs.Questions.{asked};
ghost use Rattle.flags.specs.Flags.Strips.{flag_of, Ready};
ghost use Rattle.flagging.specs.Links.{RestKept};
ghost use Rattle.sweep.specs.Sweep.{OwnSoFar, SweepAt};
ghost use Rattle.alike.specs.Pairs.{AlikePairs};

use alike::pairs::{Pair, alike_pairs};
use counts::counts::distinct_counts;
use flagging::strip::flag_column;
use placed::pattern::Pattern;
use rows::run::FirstEnd;
use shapes::shapes::Shape;

// The flags of all windows, strip by strip.
fn flag_windows<P: Pattern>(
    text: &[u8],
    pattern: P,
    first: &[usize; 256],
    own: &mut [FirstEnd; 256],
    pairs: &[Pair; 8],
    symbols: u16,
    s: Shape,
    counts: &[u16],
    links: &mut [u16],
    flags: &mut [u8],
)
    requires { Ready text.now (P.cells pattern) symbols s counts.now (length links.old) (length flags.old)
        × SweepAt text.now s (P.cells pattern) first.now own.old
        × AlikePairs (P.cells pattern) s.columns s.width pairs.now }
    ensures flags { flags.new ≡ stored_rows (flag_of text.now (P.cells pattern) s)
        (λ left top. top * across s + left) (across s) (down s) flags.old }
    ensures rest_kept { RestKept (s.rows * s.width) links.old links.new }
    ensures own_so_far { OwnSoFar (P.cells pattern) s.width (down s) own.new }
{
    let across = s.across();
    for left in 0..across {
        flag_column(
            text, pattern, first, own, pairs, symbols, s, left, counts, links, flags,
        );
    }
}

// The first step of the search: the count and the flag of every window, where the pattern has so many symbols, with
// these first places, and own ends as far as they were made. The part of the links buffer that a strip may use is 0
// afterwards.
pub fn flag_all<P: Pattern>(
    text: &[u8],
    pattern: P,
    first: &[usize; 256],
    own: &mut [FirstEnd; 256],
    symbols: u16,
    s: Shape,
    links: &mut [u16],
    counts: &mut [u16],
    flags: &mut [u8],
)
    requires { RoomFor (asked text.now (P.cells pattern) s)
        (rooms (length links.old) (length counts.old) (length flags.old))
        × (symbols ≡ distinct (P.cells pattern))
        × FirstPlaces (λ k. get_or (P.cells pattern) k 0) (length (P.cells pattern)) first.now
        × OwnSoFar (P.cells pattern) s.width (down s) own.old }
    ensures buffers { working links.new counts.new flags.new
        ≡ work_after (asked text.now (P.cells pattern) s)
        (working links.old counts.old flags.old) }
    ensures own_so_far { OwnSoFar (P.cells pattern) s.width (down s) own.new }
{
    // The sides are sound and there is room, so nothing is refused.
    let _ = distinct_counts(text, s.rows, s.columns, s.height, s.width, counts);
    let pairs = alike_pairs(pattern, first, s.columns, s.width);
    flag_windows(
        text, pattern, first, own, &pairs, symbols, s, counts, links, flags,
    );
    links[..s.rows * s.width].fill(0);
}
