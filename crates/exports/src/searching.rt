// The search for Rust and C.
ghost use Rattle.std.specs.Prelude.{◌≡◌};
ghost use Rattle.theory.specs.Bytes.{Bytes};
ghost use Rattle.refusals.specs.Said.{said_number};
ghost use Rattle.shapes.specs.Questions.{ask};
ghost use Rattle.searched.specs.Search.{lend, search_of};
ghost use Rattle.returned.specs.Returned.{values_by};

use returned::searching::return_totals;
use search::search::search;
use shapes::question::Question;

// Searches a text for a pattern (document 01, 'Search and listing'). Found, refused and the length go to totals;
// refused by 11, the length needed goes to the last of them. Any other refusal changes nothing.
#[unsafe(no_mangle)]
pub extern "C" fn colourway_search(
    text: &[u8],
    rows: usize,
    columns: usize,
    pattern: &[u8],
    height: usize,
    width: usize,
    links: &mut [u16],
    counts: &mut [u16],
    flags: &mut [u8],
    listing: &mut [u8],
    totals: &mut [usize; 3],
) -> u8
    ensures number { result ≡ said_number (search_of (ask text.now rows columns pattern.now height width)
        (lend links.old counts.old flags.old listing.old)).said }
    ensures totals_after { totals.new ≡ values_by 2
        (search_of (ask text.now rows columns pattern.now height width)
        (lend links.old counts.old flags.old listing.old)).said
        totals.old }
    ensures lent_after { lend links.new counts.new flags.new listing.new
        ≡ (search_of (ask text.now rows columns pattern.now height width)
        (lend links.old counts.old flags.old listing.old)).lent }
    ensures bytes { Bytes text.now × Bytes pattern.now }
{
    let q = Question::new(text, rows, columns, pattern, height, width);
    let answer = search(q, links, counts, flags, listing);
    return_totals(answer, totals)
}
