// Whether flags are the truth: every window is found or refused anew, from text and pattern alone, and held against its
// flag.
ghost use Rattle.std.specs.Prelude.{◌≡◌, true, ◌*◌, ◌≤◌, ◌<◌, length, is_some, IfSome};
ghost use Rattle.shapes.specs.Questions.{asked};
ghost use Rattle.shapes.specs.Shapes.{across, down};
ghost use Rattle.alike.specs.Pairs.{AlikePairs};
ghost use Rattle.sieve.specs.Sieve.{Differs, PairsAsked, SpoilerOf};
ghost use Rattle.sweep.specs.Sweep.{OwnSoFar, SweepAt};
ghost use Rattle.flags.specs.Flags.{flags_truth};
ghost use Rattle.truth.specs.Truth.{column_true};

use alike::pairs::{Pair, alike_pairs, pairs_alike};
use linked::run::flag_by;
use placed::pattern::Pattern;
use rows::run::{FirstEnd, Run};
use shapes::shapes::Shape;
use shapes::tables::table;
use sieve::spoilers::Spoiler;
use sweep::windows::window_end;

// True only of a window whose flag is 0 and that does not match: two cells that spoiled an earlier one, or one of the
// first four pairs, tell it. Where it is false the window is compared, and that decides; so is every window whose
// flag is not 0. The pattern itself is not read: it stands here for the contract.
fn known_refused<P: Pattern>(
    text: &[u8],
    pattern: P,
    pairs: &[Pair; 8],
    x: Spoiler,
    s: Shape,
    left: usize,
    top: usize,
    flag: u8,
) -> bool
    requires { PairsAsked text.now (P.cells pattern) pairs.now s left
        × SpoilerOf (P.cells pattern) s.columns s.width x × (top < down s) }
    ensures { result ≡ true → (flag ≡ 0) × Differs text.now (P.cells pattern) s left top }
{
    if flag != 0 {
        return false;
    }
    if x.spoils(text, pattern, s, left, top) {
        return true;
    }
    !pairs_alike(text, top * s.columns + left, pairs, 0)
}

// Whether the flags of the windows at column left are the truth, and if so the two cells that are kept for the next
// strip: which, is a matter of time. A window that nothing else tells is compared, with what the last one compared says
// of it. Never a part of its caller, as `flags_to_match` of crates/flags.
#[inline(never)]
fn strip_true<P: Pattern>(
    text: &[u8],
    pattern: P,
    s: Shape,
    left: usize,
    flags: &[u8],
    first: &[usize; 256],
    pairs: &[Pair; 8],
    x: Spoiler,
    own: &mut [FirstEnd; 256],
) -> Option<Spoiler>
    requires { SweepAt text.now s (P.cells pattern) first.now own.old × (left < across s)
        × (down s * across s ≤ length flags.now)
        × AlikePairs (P.cells pattern) s.columns s.width pairs.now
        × SpoilerOf (P.cells pattern) s.columns s.width x }
    ensures truth { is_some result ≡ column_true text.now (P.cells pattern) s left flags.now }
    ensures spoiler { IfSome result (SpoilerOf (P.cells pattern) s.columns s.width) }
    ensures own_so_far { OwnSoFar (P.cells pattern) s.width (down s) own.new }
{
    let wide = s.across();
    let tall = s.down();
    let mut last = table(0);
    let mut spoiler = x;
    let mut seen = 0;
    let mut run = Run { row: 0, reached: 0 };
    for top in 0..tall {
        let flag = flags[top * wide + left];
        if known_refused(text, pattern, pairs, spoiler, s, left, top, flag) {
            continue;
        }
        let r = window_end(text, pattern, s, left, first, &mut last, own, run, top);
        if flag != flag_by(r.end, pattern.len()) {
            return None;
        }
        spoiler = spoiler.kept(pattern, s.columns, s.width, r.earlier, r.end, seen);
        seen = r.end;
        run = r.run;
    }
    Some(spoiler)
}

// Whether flags are the truth: for every window 1 where the pattern matches it, and 0 where it does not. The pattern's
// own ends are made as far as a window asks for them.
pub fn flags_true<P: Pattern>(
    text: &[u8],
    pattern: P,
    s: Shape,
    first: &[usize; 256],
    own: &mut [FirstEnd; 256],
    flags: &[u8],
) -> bool
    requires { SweepAt text.now s (P.cells pattern) first.now own.old
        × (down s * across s ≤ length flags.now) }
    ensures answer { result ≡ flags_truth (asked text.now (P.cells pattern) s) flags.now }
    ensures own_so_far { OwnSoFar (P.cells pattern) s.width (down s) own.new }
{
    let wide = s.across();
    let pairs = alike_pairs(pattern, first, s.columns, s.width);
    let mut spoiler = Spoiler::none();
    for left in 0..wide {
        let Some(kept) = strip_true(text, pattern, s, left, flags, first, &pairs, spoiler, own)
        else {
            return false;
        };
        spoiler = kept;
    }
    true
}
