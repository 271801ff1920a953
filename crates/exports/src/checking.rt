// The check of a listing for Rust and C.
ghost use Rattle.std.specs.Prelude.{◌≡◌};
ghost use Rattle.theory.specs.Bytes.{Bytes};
ghost use Rattle.refusals.specs.Said.{said_number};
ghost use Rattle.shapes.specs.Questions.{ask};
ghost use Rattle.rules.specs.Check.{check_of};
ghost use Rattle.returned.specs.Returned.{values_by};

use returned::checking::return_counts;
use shapes::question::Question;
use verify::check::check;

// Checks a listing for a text and a pattern (document 01, 'Reading and checking'). Found and refused go to totals;
// refused by 6 or 7, the place of the first bad record goes to the first of them. Nothing else is changed.
#[unsafe(no_mangle)]
pub extern "C" fn colourway_check(
    text: &[u8],
    rows: usize,
    columns: usize,
    pattern: &[u8],
    height: usize,
    width: usize,
    listing: &[u8],
    totals: &mut [usize; 2],
) -> u8
    ensures number { result ≡ said_number
        (check_of (ask text.now rows columns pattern.now height width) listing.now) }
    ensures totals_after { totals.new ≡ values_by 0
        (check_of (ask text.now rows columns pattern.now height width) listing.now)
        totals.old }
    ensures bytes { Bytes text.now × Bytes pattern.now × Bytes listing.now }
{
    let q = Question::new(text, rows, columns, pattern, height, width);
    let answer = check(q, listing);
    return_counts(answer, totals)
}
