// The flags of one strip: by the sweep as far as to a match below which links serve, and from there on by the strip's
// links.
ghost use Rattle.std.specs.Prelude.{◌≡◌, ◌+◌, ◌-◌, ◌*◌, ◌≤◌, ◌<◌, length};
ghost use Rattle.theory.specs.Store.{stored};
ghost use Rattle.shapes.specs.Shapes.{across, down};
ghost use Rattle.flags.specs.Flags.{Room};
ghost use Rattle.flags.specs.Flags.Strips.{flag_of, Ready};
ghost use Rattle.flagging.specs.Links.{RestKept};
ghost use Rattle.flagging.specs.Windows.{FlaggedBelow, PatternTables, StripFlagged};
ghost use Rattle.sweep.specs.Sweep.{OwnSoFar, SweepAt};
ghost use Rattle.alike.specs.Pairs.{AlikePairs};

use alike::pairs::Pair;
use flags::swept::flags_to_match;
use grid::strips::strip_links;
use linked::run::next_flag;
use placed::pattern::Pattern;
use rows::run::{FirstEnd, Run};
use shapes::shapes::Shape;
use sweep::own::lengthen_ends;

// The flags of the windows at column left from row from on, below one that matches, each with what the last one that
// was compared says of it.
fn flag_strip<P: Pattern>(
    pattern: P,
    first: &[usize; 256],
    own: &[FirstEnd; 256],
    symbols: u16,
    s: Shape,
    left: usize,
    from: usize,
    counts: &[u16],
    links: &[u16],
    flags: &mut [u8],
)
    requires { Room (s.rows * s.columns) (length (P.cells pattern)) s (length links.now) (length counts.now)
        (length flags.old) × (left < across s)
        × PatternTables (P.cells pattern) s.width (down s) first.now own.now
        × (1 ≤ from) × (from ≤ down s) }
    ensures { StripFlagged (P.cells pattern) symbols s left from counts.now links.now flags.old flags.new }
{
    let across = s.across();
    let down = s.down();
    let row = from - 1;
    let mut run = Run {
        row,
        reached: row * s.width + pattern.len(),
    };
    for top in from..down {
        let k = top * across + left;
        let r = next_flag(
            pattern, first, own, symbols, counts[k], links, s.width, run, top,
        );
        flags[k] = r.flag;
        run = r.run;
    }
}

// The same by the strip's links, which the links buffer holds meanwhile, and by all own ends of the pattern: the window
// above agrees throughout, so that the next one asks for them.
fn flag_linked<P: Pattern>(
    text: &[u8],
    pattern: P,
    first: &[usize; 256],
    own: &mut [FirstEnd; 256],
    symbols: u16,
    s: Shape,
    left: usize,
    from: usize,
    counts: &[u16],
    links: &mut [u16],
    flags: &mut [u8],
)
    requires { Ready text.now (P.cells pattern) symbols s counts.now (length links.old) (length flags.old)
        × (left < across s) × SweepAt text.now s (P.cells pattern) first.now own.old
        × (1 ≤ from) × (from ≤ down s)
        × (flag_of text.now (P.cells pattern) s ((from - 1) * across s + left) ≡ 1) }
    ensures flagged_below { FlaggedBelow text.now (P.cells pattern) s left from flags.old flags.new }
    ensures rest_kept { RestKept (s.rows * s.width) links.old links.new }
    ensures own_so_far { OwnSoFar (P.cells pattern) s.width (down s) own.new }
{
    // The sides are sound and there is room, so nothing is refused.
    let _ = strip_links(text, s.rows, s.columns, s.width, left, links);
    let windows = s.down();
    lengthen_ends(
        pattern,
        s.height,
        s.width,
        windows,
        first,
        own,
        pattern.len(),
    );
    flag_strip(
        pattern, first, own, symbols, s, left, from, counts, links, flags,
    );
}

// The flags of the windows at column left.
pub fn flag_column<P: Pattern>(
    text: &[u8],
    pattern: P,
    first: &[usize; 256],
    own: &mut [FirstEnd; 256],
    pairs: &[Pair; 8],
    symbols: u16,
    s: Shape,
    left: usize,
    counts: &[u16],
    links: &mut [u16],
    flags: &mut [u8],
)
    requires { Ready text.now (P.cells pattern) symbols s counts.now (length links.old) (length flags.old)
        × (left < across s) × SweepAt text.now s (P.cells pattern) first.now own.old
        × AlikePairs (P.cells pattern) s.columns s.width pairs.now }
    ensures flags { flags.new ≡ stored (flag_of text.now (P.cells pattern) s)
        (λ top. top * across s + left) (down s) flags.old }
    ensures rest_kept { RestKept (s.rows * s.width) links.old links.new }
    ensures own_so_far { OwnSoFar (P.cells pattern) s.width (down s) own.new }
{
    let from = flags_to_match(
        text, pattern, first, pairs, symbols, s, left, counts, own, flags,
    );
    if s.down() <= from {
        return;
    }
    flag_linked(
        text, pattern, first, own, symbols, s, left, from, counts, links, flags,
    );
}
