// The records of one window: found with its pairs, or a mismatch.
ghost use Rattle.std.specs.Prelude.{◌≡◌, ◌+◌, eqb, Ok};
ghost use Rattle.theory.specs.Older.{Older};
ghost use Rattle.theory.specs.Test.{both};
ghost use Rattle.sets.specs.Symbols.{symbols_of};
ghost use Rattle.refusals.specs.declared.refusals.Refusal.TheVariants.{ListingFalse};
ghost use Rattle.listing.specs.Entries.{in_pattern};
ghost use Rattle.claims.specs.Claims.{or_stop};
ghost use Rattle.claims.specs.Walks.{MismatchAt};
ghost use Rattle.rules.specs.Check.{right_mismatch, entry_from};
ghost use Rattle.inheriting.specs.Inheritance.{TablesSeen};

use cells::windows::WindowPlace;
use claims::mismatches::true_mismatch;
use found::window::found_pairs;
use inheriting::tables::Tables;
use listing::records::{Kind, MismatchBody, Place, Record, Side};
use matching::compared::Compared;
use reading::reader::Cursor;
use refusals::refusals::Refusal;

// Whether a record names the window that is due, whose row and column are usize: for == of two `Place`s one would first
// have to be made of bytes.
fn is_due(v: WindowPlace, window: Place) -> bool
    ensures { result ≡ both (eqb window.row v.row) (eqb window.column v.column) }
{
    usize::from(window.row) == v.row && usize::from(window.column) == v.column
}

// A mismatch that was read at a place; next is the place after it. Refused by hand, here and below: of
// `Refusal::unless` is known what is said, and the contracts are of the refusal itself.
fn refused_window(
    c: Compared,
    alike: Side,
    body: MismatchBody,
    listing: &[u8],
    at: usize,
    next: usize,
) -> Result<usize, Refusal>
    requires { MismatchAt body listing.now at }
    ensures { let w = c.entry.window in
        result ≡ or_stop (right_mismatch (in_pattern alike) w.text.now c.entry.pattern.now w.place listing.now at)
        (ListingFalse at) (Ok next) }
{
    if !is_due(c.window.place, body.window) {
        return Err(Refusal::ListingFalse(at));
    }
    if !true_mismatch(c, alike, body.earlier, body.later) {
        return Err(Refusal::ListingFalse(at));
    }
    Ok(next)
}

// The records at a place, for the window that is compared.
pub fn check_entry(
    c: Compared,
    symbols: &[u8],
    base: u32,
    tables: &mut Tables,
    listing: &[u8],
    at: usize,
) -> Result<usize, Refusal>
    requires { (symbols.now ≡ symbols_of c.pattern.now) × Older base tables.old.given × TablesSeen c tables.old }
    ensures answer { let w = c.entry.window in
        result ≡ entry_from w.text.now c.entry.pattern.now w.place listing.now at }
    ensures older { Older (base + 256) tables.new.given }
    ensures check_tables { TablesSeen c.entry tables.new }
{
    let cursor = Cursor { at };
    let Ok((item, next)) = cursor.read_first(listing, Kind::Found) else {
        return Err(Refusal::ListingForm(at));
    };
    match item {
        Record::Found { row, column } => {
            if !is_due(c.window.place, Place { row, column }) {
                return Err(Refusal::ListingFalse(at));
            }
            found_pairs(c, symbols, base, tables, listing, next.at)
        }
        Record::Mismatch { alike, body } => { refused_window(c, alike, body, listing, at, next.at) }
        Record::Pair { .. } | Record::Closing { .. } => Err(Refusal::ListingForm(at)),
    }
}
