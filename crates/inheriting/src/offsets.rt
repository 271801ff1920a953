// How far the first place of each of the pattern's symbols lies behind a window's corner. It is the same for all
// windows, so it is found out once a check, and no image costs a division. No window is named here: a pattern and a row
// width are enough for the offsets, a corner for an image.
ghost use Rattle.std.specs.Prelude.{◌≡◌, ◌+◌, ◌≤◌, ◌<◌, length, get_or};
ghost use Rattle.sets.specs.Symbols.{symbols_of};
ghost use Rattle.sweep.specs.Sweep.{SidesOf};
ghost use Rattle.inheriting.specs.Offsets.{image_from_behind, Offsets, Prepared, Made};

use cells::windows::cell_offset;
use placed::pattern::Pattern;
use shapes::tables::table;

// The offset of each of the pattern's symbols, from the symbol's first place. The table of first places is in no other
// frame, as this is done once.
#[inline(never)]
fn fill_offsets(
    pattern: &[u8],
    symbols: &[u8],
    columns: usize,
    height: usize,
    width: usize,
    offsets: &mut [usize; 256],
)
    requires { SidesOf pattern.now height width × (symbols.now ≡ symbols_of pattern.now) × (columns ≤ 255) }
    ensures { Offsets pattern.now columns width offsets.new }
{
    let mut first = table(0);
    pattern.first_places(&mut first);
    for a in symbols {
        let a = usize::from(*a);
        offsets[a] = cell_offset(columns, width, first[a]);
    }
}

// The offsets are made when a found record is first met.
#[inline(never)]
pub fn make_offsets(
    pattern: &[u8],
    symbols: &[u8],
    columns: usize,
    height: usize,
    width: usize,
    offsets: &mut Option<[usize; 256]>,
)
    requires { SidesOf pattern.now height width × (symbols.now ≡ symbols_of pattern.now) × (columns ≤ 255)
        × Prepared pattern.now columns width offsets.old }
    ensures { Made pattern.now columns width offsets.new }
{
    if offsets.is_none() {
        let made = offsets.insert(table(0));
        fill_offsets(pattern, symbols, columns, height, width, made);
    }
}

// The image of symbol a behind a corner.
#[inline]
pub fn image_behind(text: &[u8], corner: usize, offsets: &[usize; 256], a: u8) -> u8
    requires { corner + get_or offsets.now a 0 < length text.now }
    ensures { result ≡ image_from_behind text.now corner offsets.now a }
{
    text[corner + offsets[usize::from(a)]]
}
