// Count for Rust and C, the first of the two operations that the search is made of.
ghost use Rattle.std.specs.Prelude.{◌≡◌};
ghost use Rattle.theory.specs.Bytes.{Bytes};
ghost use Rattle.refusals.specs.Said.{said_number};
ghost use Rattle.shapes.specs.Questions.{ask};
ghost use Rattle.flags.specs.Flags.{working};
ghost use Rattle.searched.specs.Search.{count_of};
ghost use Rattle.returned.specs.Returned.{values_by};

use counting::count::count_windows;
use returned::searching::return_totals;
use shapes::question::Question;

// Counts the windows that the pattern matches, and those that it does not (document 02, R-1). Found, refused and the
// length of the listing go to totals. A refusal changes nothing.
#[unsafe(no_mangle)]
pub extern "C" fn colourway_count(
    text: &[u8],
    rows: usize,
    columns: usize,
    pattern: &[u8],
    height: usize,
    width: usize,
    links: &mut [u16],
    counts: &mut [u16],
    flags: &mut [u8],
    totals: &mut [usize; 3],
) -> u8
    ensures number { result ≡ said_number (count_of (ask text.now rows columns pattern.now height width)
        (working links.old counts.old flags.old)).said }
    ensures totals_after { totals.new ≡ values_by 2
        (count_of (ask text.now rows columns pattern.now height width)
        (working links.old counts.old flags.old)).said
        totals.old }
    ensures buffers_after { working links.new counts.new flags.new
        ≡ (count_of (ask text.now rows columns pattern.now height width)
        (working links.old counts.old flags.old)).work }
    ensures bytes { Bytes text.now × Bytes pattern.now }
{
    let q = Question::new(text, rows, columns, pattern, height, width);
    let answer = count_windows(q, links, counts, flags);
    return_totals(answer, totals)
}
