// What a found window inherits from a carried window above it in its strip: all rows but those that are new.
// The pattern is held against itself only when a window that can inherit is met, and once for all windows.
ghost use Rattle.std.specs.Prelude.{◌≡◌, ◌*◌, ◌≤◌, ◌<◌, length};
ghost use Rattle.matching.specs.Compared.{pattern_seen, window_seen};
ghost use Rattle.sweep.specs.Sweep.{SidesOf};
ghost use Rattle.inheriting.specs.Inheritance.{Follows, own_end_of, OwnEndsMade, OwnEndsIfMade, AboveSeen};

use cells::windows::WindowPlace;
use matching::compared::Compared;
use placed::pattern::Pattern;
use rows::run::FirstEnd;
use shapes::tables::table;
use sweep::own::own_ends;

// The first end of the pattern's rows from k on against the pattern itself. All of them are made when one is first
// asked for: until then own end 0, which is the pattern's length, is 0. That is done once, so its table is in no other
// frame.
#[inline(never)]
fn own_end(
    pattern: &[u8],
    height: usize,
    width: usize,
    own: &mut [FirstEnd; 256],
    k: usize,
) -> usize
    requires { SidesOf pattern.now height width × OwnEndsIfMade pattern.now height width own.old × (k < height) }
    ensures value { result ≡ own_end_of pattern.now (k * width) }
    ensures own_ends_made { OwnEndsMade pattern.now height width own.new }
{
    if 0 < own[0].end {
        return own[k].end;
    }
    let mut first = table(0);
    pattern.first_places(&mut first);
    own_ends(pattern, height, width, height, height, &first, own);
    own[k].end
}

// How many rows of the window follow the pattern because the carried window above that was kept does: all but the last
// k, where that one lies k rows further up and the pattern's rows from k on have no mismatch with its first rows; else
// none. Where the pattern matches both windows, the lower one always inherits so.
pub fn inherited_rows(c: Compared, own: &mut [FirstEnd; 256], tops: &[usize; 256]) -> usize
    requires { AboveSeen c own.old tops.now }
    ensures inherited { let v = c.entry.window.place in
        (result ≤ v.height) × Follows (pattern_seen c.entry) (window_seen c.entry) (result * v.width) }
    ensures above { AboveSeen c.entry own.new tops.now }
{
    let Compared {
        window,
        pattern,
        ..
    } = c;
    let WindowPlace {
        row,
        column,
        height,
        width,
        ..
    } = window.place;
    let above = tops[column];
    if above == 0 || row < above {
        return 0;
    }
    let k = row + 1 - above;
    if height <= k {
        return 0;
    }
    let end = own_end(pattern, height, width, own, k);
    if end < pattern.len() - k * width {
        return 0;
    }
    height - k
}
