// List for Rust and C, the second of the two operations that the search is made of.
ghost use Rattle.std.specs.Prelude.{◌≡◌};
ghost use Rattle.theory.specs.Bytes.{Bytes};
ghost use Rattle.refusals.specs.Said.{said_number};
ghost use Rattle.shapes.specs.Questions.{ask};
ghost use Rattle.searched.specs.Search.{list_of};
ghost use Rattle.returned.specs.Returned.{values_by};

use lister::list::list_windows;
use returned::searching::return_totals;
use shapes::question::Question;

// Writes the search's listing from flags that are held against the truth first (document 02, R-1). Found, refused and
// the length go to totals; refused by 11, the length needed goes to the last of them. Any other refusal changes
// nothing.
#[unsafe(no_mangle)]
pub extern "C" fn colourway_list(
    text: &[u8],
    rows: usize,
    columns: usize,
    pattern: &[u8],
    height: usize,
    width: usize,
    flags: &[u8],
    listing: &mut [u8],
    totals: &mut [usize; 3],
) -> u8
    ensures number { result ≡ said_number (list_of (ask text.now rows columns pattern.now height width)
        flags.now listing.old).said }
    ensures totals_after { totals.new ≡ values_by 2
        (list_of (ask text.now rows columns pattern.now height width) flags.now
        listing.old).said
        totals.old }
    ensures listing_after { listing.new
        ≡ (list_of (ask text.now rows columns pattern.now height width) flags.now
        listing.old).buffer }
    ensures bytes { Bytes text.now × Bytes pattern.now }
{
    let q = Question::new(text, rows, columns, pattern, height, width);
    let answer = list_windows(q, flags, listing);
    return_totals(answer, totals)
}
