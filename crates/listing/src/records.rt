// The records of a listing: one byte of kind and a body whose length the kind fixes.
ghost use Rattle.std.specs.Prelude.{◌≡◌, ◌+◌, ◌≤◌, length};
ghost use Rattle.theory.specs.Written.{written};
ghost use Rattle.listing.specs.Records.{bytes_of, mismatch_bytes, kind_of, kind_byte, size_of_kind, Decodes};
ghost use Rattle.listing.specs.Entries.{side_alike, mismatch_record};

use crate::bytes::put;

// A place by row and column: a window's corner in the text, or a cell in the pattern.
#[derive(Clone, Copy, Debug, PartialEq, Eq)]
pub struct Place {
    pub row: u8,
    pub column: u8,
}

// A window, and the two cells that spoil it.
#[derive(Clone, Copy, Debug, PartialEq, Eq)]
pub struct MismatchBody {
    pub window: Place,
    pub earlier: Place,
    pub later: Place,
}

// The side on which the two cells of a mismatch are alike: in the pattern only, or in the window only.
#[derive(Clone, Copy, Debug, PartialEq, Eq)]
pub enum Side {
    Pattern,
    Window,
}

impl From<bool> for Side {
    ghost from_gives = { λ in_pattern side. side ≡ side_alike in_pattern };

    // Whether the two cells are alike in the pattern tells the side.
    fn from(in_pattern: bool) -> Side {
        if in_pattern {
            Side::Pattern
        } else {
            Side::Window
        }
    }
}

// What a record is, by its first byte.
#[derive(Clone, Copy, Debug, PartialEq, Eq)]
pub enum Kind {
    Found,
    Pair,
    Mismatch(Side),
    Closing,
}

// A byte that no kind has.
#[derive(Clone, Copy, Debug, PartialEq, Eq)]
pub struct UnknownKind(pub u8);

impl From<Kind> for u8 {
    ghost from_gives = { λ kind byte. byte ≡ kind_byte kind };

    fn from(kind: Kind) -> u8 {
        match kind {
            Kind::Found => 1,
            Kind::Pair => 2,
            Kind::Mismatch(Side::Pattern) => 3,
            Kind::Mismatch(Side::Window) => 4,
            Kind::Closing => 5,
        }
    }
}

impl TryFrom<u8> for Kind {
    type Error = UnknownKind;

    ghost try_from_gives = { Decodes };

    fn try_from(byte: u8) -> Result<Kind, UnknownKind> {
        match byte {
            1 => Ok(Kind::Found),
            2 => Ok(Kind::Pair),
            3 => Ok(Kind::Mismatch(Side::Pattern)),
            4 => Ok(Kind::Mismatch(Side::Window)),
            5 => Ok(Kind::Closing),
            _ => Err(UnknownKind(byte)),
        }
    }
}

impl Kind {
    // How many bytes a record of this kind has, with the kind's own.
    pub fn size(self) -> usize
        ensures { result ≡ size_of_kind self }
    {
        match self {
            Kind::Found | Kind::Pair => 3,
            Kind::Mismatch(_) => 7,
            Kind::Closing => 5,
        }
    }
}

// A record, a case for each kind. A window is named by its corner.
#[derive(Clone, Copy, Debug, PartialEq, Eq)]
pub enum Record {
    Found { row: u8, column: u8 },
    Pair { pattern: u8, text: u8 },
    Mismatch { alike: Side, body: MismatchBody },
    Closing { found: u16, refused: u16 },
}

impl Record {
    pub fn kind(self) -> Kind
        ensures { result ≡ kind_of self }
    {
        match self {
            Record::Found { .. } => Kind::Found,
            Record::Pair { .. } => Kind::Pair,
            Record::Mismatch { alike, .. } => Kind::Mismatch(alike),
            Record::Closing { .. } => Kind::Closing,
        }
    }
}

// The bytes of a mismatch behind its kind.
fn body_bytes(body: MismatchBody) -> [u8; 6]
    ensures { result ≡ mismatch_bytes body }
{
    let MismatchBody {
        window,
        earlier,
        later,
    } = body;
    [
        window.row,
        window.column,
        earlier.row,
        earlier.column,
        later.row,
        later.column,
    ]
}

// Writes a record's bytes at a place, where there is room for them; the place after it.
pub fn write_record(listing: &mut [u8], at: usize, item: Record) -> usize
    requires { at + length (bytes_of item) ≤ length listing.old }
    ensures end { result ≡ at + length (bytes_of item) }
    ensures listing_after { listing.new ≡ written listing.old at (bytes_of item) }
{
    let kind = u8::from(item.kind());
    match item {
        Record::Found { row, column } => put(listing, at, &[kind, row, column]),
        Record::Pair { pattern, text } => put(listing, at, &[kind, pattern, text]),
        Record::Mismatch { alike: _, body } => {
            let [a, b, c, d, e, f] = body_bytes(body);
            put(listing, at, &[kind, a, b, c, d, e, f])
        }
        Record::Closing { found, refused } => {
            let [a, b] = found.to_be_bytes();
            let [c, d] = refused.to_be_bytes();
            put(listing, at, &[kind, a, b, c, d])
        }
    }
}

// Writes a refused window's record by the side that is alike, which only the text tells; the place after it.
pub fn write_mismatch(listing: &mut [u8], at: usize, alike: bool, body: MismatchBody) -> usize
    requires { at + 7 ≤ length listing.old }
    ensures end { result ≡ at + 7 }
    ensures listing_after { listing.new ≡ written listing.old at (bytes_of (mismatch_record alike body)) }
{
    let alike = Side::from(alike);
    write_record(listing, at, Record::Mismatch { alike, body })
}
