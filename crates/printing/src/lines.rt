// Document 01's output: a record a line, its bytes in decimal with one space between, line feed; a refusal alone on a
// line.
ghost use Rattle.std.specs.Prelude.{◌≡◌, ◌+◌, ◌*◌, ◌≤◌, ◌<◌, length};
ghost use Rattle.theory.specs.Written.{written};
ghost use Rattle.printing.specs.Lines.{line_of, refusal_line, Recorded, Printed};

use crate::decimal::write_item;
use listing::bytes::put;
use reading::reader::Cursor;

// Writes the line of some bytes at a place; the place after it.
fn write_line(output: &mut [u8], at: usize, bytes: &[u8]) -> usize
    requires { (0 < length bytes.now) × (at + length (line_of bytes.now) ≤ length output.old) }
    ensures end { result ≡ at + length (line_of bytes.now) }
    ensures output_after { output.new ≡ written output.old at (line_of bytes.now) }
{
    let Some((last, before)) = bytes.split_last() else {
        unreachable!()
    };
    let mut end = at;
    for b in before {
        end = write_item(output, end, *b, b' ');
    }
    write_item(output, end, *last, b'\n')
}

// Writes the lines of a listing's records at a place; the place after them. A byte of the listing takes at most four:
// three digits and a space or the line feed.
pub fn write_lines(output: &mut [u8], at: usize, listing: &[u8]) -> usize
    requires { Recorded listing.now × (at + 4 * length listing.now ≤ length output.old) }
    ensures { Printed listing.now output.old at output.new result }
{
    let mut end = at;
    let mut cursor = Cursor { at: 0 };
    while let Ok((_, next)) = cursor.read(listing) {
        end = write_line(output, end, &listing[cursor.at..next.at]);
        cursor = next;
    }
    end
}

// Writes the line of a refusal with that number at a place; the place after it. Beside `Display` of a refusal: that
// hands text to a writer and promises none of it, this writes into a lent buffer, with a contract for every byte.
pub fn write_refusal(output: &mut [u8], at: usize, number: u8) -> usize
    requires { at + length (refusal_line number) ≤ length output.old }
    ensures end { result ≡ at + length (refusal_line number) }
    ensures output_after { output.new ≡ written output.old at (refusal_line number) }
{
    let end = put(output, at, b"refused ");
    write_item(output, end, number, b'\n')
}
