// What the reader answers, in numbers.
ghost use Rattle.std.specs.Prelude.{◌≡◌};
ghost use Rattle.refusals.specs.Said.{said_values};
ghost use Rattle.reading.specs.Reader.{read_said};
ghost use Rattle.refusals.specs.Refusals.{value_or_given};
ghost use Rattle.fields.specs.Reader.{fields_of, fields_by};

use listing::records::Record;
use reading::reader::Cursor;
use refusals::refusals::Refusal;

// The numbers of a record: its kind, then those of its body, and 0 for what it does not have. No `From`: a record's
// type is of another crate, and so are arrays.
pub fn fields_of(item: Record) -> [u16; 7]
    ensures { result ≡ fields_of item }
{
    let kind = u16::from(u8::from(item.kind()));
    match item {
        Record::Found { row, column } => [kind, u16::from(row), u16::from(column), 0, 0, 0, 0],
        Record::Pair { pattern, text } => [kind, u16::from(pattern), u16::from(text), 0, 0, 0, 0],
        Record::Mismatch { alike: _, body } => [
            kind,
            u16::from(body.window.row),
            u16::from(body.window.column),
            u16::from(body.earlier.row),
            u16::from(body.earlier.column),
            u16::from(body.later.row),
            u16::from(body.later.column),
        ],
        Record::Closing { found, refused } => [kind, found, refused, 0, 0, 0, 0],
    }
}

// The fields after an answer: its record's, or else what stood there.
pub fn read_fields(answer: Result<(Record, Cursor), Refusal>, old: [u16; 7]) -> [u16; 7]
    ensures { result ≡ fields_by (read_said answer) old }
{
    match answer {
        Ok((item, _)) => fields_of(item),
        Err(_) => old,
    }
}

// The place that an answer returns: after its record, or the refusal's.
pub fn read_place(answer: Result<(Record, Cursor), Refusal>, old: usize) -> usize
    ensures { result ≡ value_or_given (said_values (read_said answer)) old }
{
    answer.map_or_else(|why| why.value().unwrap_or(old), |(_, next)| next.at)
}
