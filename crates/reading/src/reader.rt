// The reader of a listing: a cursor by value, and a whole record with the cursor after it.
ghost use Rattle.std.specs.Prelude.{◌≡◌, ◌∷◌, ◌+◌, ◌-◌, ◌≤◌, length};
ghost use Rattle.reading.specs.Reader.{read_said, cursor_said, KindAt, bytes_from};
ghost use Rattle.listing.specs.Records.{bytes_of, mismatch_bytes, kind_byte, size_of_kind};

use listing::records::{Kind, MismatchBody, Place, Record};
use refusals::refusals::Refusal;

// A place in a listing.
#[derive(Clone, Copy, Debug, PartialEq, Eq)]
pub struct Cursor {
    pub at: usize,
}

// The body of a mismatch, on either side.
fn body_at(listing: &[u8], at: usize) -> MismatchBody
    requires { at + 7 ≤ length listing.now }
    ensures { mismatch_bytes result ≡ bytes_from listing.now at 1 6 }
{
    MismatchBody {
        window: Place {
            row: listing[at + 1],
            column: listing[at + 2],
        },
        earlier: Place {
            row: listing[at + 3],
            column: listing[at + 4],
        },
        later: Place {
            row: listing[at + 5],
            column: listing[at + 6],
        },
    }
}

// The record of a kind whose bytes stand at a place, all of them.
fn record_at(listing: &[u8], at: usize, kind: Kind) -> Record
    requires { at + size_of_kind kind ≤ length listing.now }
    ensures { bytes_of result ≡ kind_byte kind ∷ bytes_from listing.now at 1 (size_of_kind kind - 1) }
{
    match kind {
        Kind::Found => Record::Found {
            row: listing[at + 1],
            column: listing[at + 2],
        },
        Kind::Pair => Record::Pair {
            pattern: listing[at + 1],
            text: listing[at + 2],
        },
        Kind::Mismatch(alike) => Record::Mismatch {
            alike,
            body: body_at(listing, at),
        },
        Kind::Closing => Record::Closing {
            found: u16::from_be_bytes([listing[at + 1], listing[at + 2]]),
            refused: u16::from_be_bytes([listing[at + 3], listing[at + 4]]),
        },
    }
}

impl Cursor {
    // A record of the kind whose byte stands at the cursor. Refused by 6 where it is cut.
    fn read_kind(self, listing: &[u8], kind: Kind) -> Result<(Record, Cursor), Refusal>
        requires { KindAt listing.now self.at (kind_byte kind) }
        ensures { read_said result ≡ cursor_said listing.now self.at }
    {
        let at = self.at;
        let size = kind.size();
        if listing.len() - at < size {
            return Err(Refusal::ListingForm(at));
        }
        let item = record_at(listing, at, kind);
        Ok((item, Cursor { at: at + size }))
    }

    // The record at the cursor, with the cursor after it. Refused by 15, then 6, both with the cursor's place.
    pub fn read(self, listing: &[u8]) -> Result<(Record, Cursor), Refusal>
        ensures { read_said result ≡ cursor_said listing.now self.at }
    {
        let at = self.at;
        if listing.len() <= at {
            return Err(Refusal::CursorSpent(at));
        }
        let Ok(kind) = Kind::try_from(listing[at]) else {
            return Err(Refusal::ListingForm(at));
        };
        self.read_kind(listing, kind)
    }

    // The same, for a caller that waits for a kind: where its byte stands, no other kind is asked after.
    #[inline(always)]
    pub fn read_first(self, listing: &[u8], kind: Kind) -> Result<(Record, Cursor), Refusal>
        ensures { read_said result ≡ cursor_said listing.now self.at }
    {
        let at = self.at;
        if at < listing.len() && listing[at] == u8::from(kind) {
            return self.read_kind(listing, kind);
        }
        self.read(listing)
    }
}
