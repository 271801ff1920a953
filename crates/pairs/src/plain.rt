// Pairs with nothing wrong, as nearly all are: read without a record and without a choice between refusals. No window is
// named here: the images that lie in the text are enough, and what is said holds of every window that has them.
ghost use Rattle.std.specs.Prelude.{◌≡◌, true, false, ◌+◌, ◌*◌, ◌≤◌, ◌<◌, length, get_or};
ghost use Rattle.inheriting.specs.Offsets.{ImagesInside};
ghost use Rattle.pairs.specs.Pairs.Plain.{PlainPair, PlainTo};

use inheriting::offsets::image_behind;
use listing::records::Kind;

// The pair at a place as nearly every pair is: the wanted symbol, with its image, which no pair before it gave. It is
// marked then. What says false here decides nothing: the pair is then read with all that can be wrong with it. Kind and
// symbol are compared as one number, which costs one read of the listing in place of two.
fn plain_pair(
    text: &[u8],
    corner: usize,
    offsets: &[usize; 256],
    base: u32,
    given: &mut [u32; 256],
    a: u8,
    listing: &[u8],
    at: usize,
) -> bool
    requires { (corner + get_or offsets.now a 0 < length text.now) × (at + 3 ≤ length listing.now) }
    ensures plain_pair { result ≡ true
        → PlainPair text.now corner offsets.now base given.old a listing.now at given.new }
    ensures given_unchanged { result ≡ false → given.new ≡ given.old }
{
    let head = u16::from_le_bytes([listing[at], listing[at + 1]]);
    if head != u16::from_le_bytes([u8::from(Kind::Pair), a]) {
        return false;
    }
    let b = listing[at + 2];
    let image = image_behind(text, corner, offsets, a);
    if image != b {
        return false;
    }
    let place = usize::from(b);
    if given[place] == base {
        return false;
    }
    given[place] = base;
    true
}

// How many pairs are plain, from the first on, in a window that is carried: all of them, unless something is wrong. So
// the usual pair costs no reading of a record and no choice between refusals.
pub fn plain_pairs(
    text: &[u8],
    carried: bool,
    corner: usize,
    offsets: &[usize; 256],
    base: u32,
    given: &mut [u32; 256],
    symbols: &[u8],
    listing: &[u8],
    at: usize,
) -> usize
    requires { ImagesInside text.now corner offsets.now symbols.now }
    ensures plain_to { PlainTo text.now carried corner offsets.now base symbols.now listing.now at given.old result
        (at + 3 * result) given.new }
    ensures result_bound { at + 3 * result ≤ 18446744073709551615 }
{
    if !carried || listing.len() < at || (listing.len() - at) / 3 < symbols.len() {
        return 0;
    }
    let mut end = at;
    for (k, a) in symbols.iter().enumerate() {
        if !plain_pair(text, corner, offsets, base, given, *a, listing, end) {
            return k;
        }
        end += 3;
    }
    symbols.len()
}
