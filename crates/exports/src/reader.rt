// The reader of a listing for Rust and C.
ghost use Rattle.std.specs.Prelude.{◌≡◌};
ghost use Rattle.refusals.specs.Said.{said_number};
ghost use Rattle.reading.specs.Reader.{cursor_said};
ghost use Rattle.fields.specs.Reader.{fields_by, next_by};

use fields::reader::{read_fields, read_place};
use reading::reader::Cursor;
use refusals::refusals::answer_number;

// The record at a place of a listing (document 01, 'Reading and checking'): its numbers go to fields, the place after
// it to next. A refusal leaves fields as they are, and next is the place that it returns.
#[unsafe(no_mangle)]
pub extern "C" fn colourway_read(
    listing: &[u8],
    at: usize,
    fields: &mut [u16; 7],
    next: &mut [usize; 1],
) -> u8
    ensures number { result ≡ said_number (cursor_said listing.now at) }
    ensures fields_after { fields.new ≡ fields_by (cursor_said listing.now at) fields.old }
    ensures next_after { next.new ≡ next_by (cursor_said listing.now at) }
{
    let cursor = Cursor { at };
    let answer = cursor.read(listing);
    *fields = read_fields(answer, *fields);
    *next = [read_place(answer, next[0])];
    answer_number(&answer)
}
