// The one-window question for Rust and C.
ghost use Rattle.std.specs.Prelude.{◌≡◌};
ghost use Rattle.refusals.specs.Said.{said_number};
ghost use Rattle.shapes.specs.Questions.{ask};
ghost use Rattle.matching.specs.Compare.{window_said};
ghost use Rattle.values.specs.Bijections.{from_columns};
ghost use Rattle.values.specs.Compare.{window_mismatch, window_bijection};

use answering::one_window::one_window;
use shapes::question::Question;
use values::compare::write_verdict;

// Whether the pattern matches the window of its size at that corner of a text (document 01, 'One window'). The
// bijection's columns go to forward and backward; a mismatch, as the kind of its record and its earlier and later cell
// by position, to mismatch. A refusal changes none of them.
#[unsafe(no_mangle)]
pub extern "C" fn colourway_one_window(
    text: &[u8],
    rows: usize,
    columns: usize,
    pattern: &[u8],
    height: usize,
    width: usize,
    row: usize,
    column: usize,
    forward: &mut [u16; 256],
    backward: &mut [u16; 256],
    mismatch: &mut [usize; 3],
) -> u8
    ensures number { result ≡ said_number (window_said (ask text.now rows columns pattern.now height width) row
        column) }
    ensures backward_after { from_columns forward.new backward.new
        ≡ window_bijection (ask text.now rows columns pattern.now height width) row column
        (from_columns forward.old backward.old) }
    ensures mismatch_after { mismatch.new
        ≡ window_mismatch (ask text.now rows columns pattern.now height width) row column
        mismatch.old }
{
    let q = Question::new(text, rows, columns, pattern, height, width);
    let answer = one_window(q, row, column);
    write_verdict(answer, forward, backward, mismatch)
}
