// The closing of a listing.
ghost use Rattle.std.specs.Prelude.{◌≡◌};
ghost use Rattle.rules.specs.Check.{closing_from};

use listing::records::Record;
use reading::reader::Cursor;
use refusals::refusals::Refusal;

// The closing at a place, with these counts, and behind it the end. Refused by hand: of `Refusal::unless` is known what
// is said, and the contract is of the refusal itself.
pub fn check_closing(listing: &[u8], found: u16, refused: u16, at: usize) -> Result<usize, Refusal>
    ensures { result ≡ closing_from listing.now found refused at }
{
    let cursor = Cursor { at };
    let Ok((item, next)) = cursor.read(listing) else {
        return Err(Refusal::ListingForm(at));
    };
    let Record::Closing {
        found: a,
        refused: b,
    } = item
    else {
        return Err(Refusal::ListingForm(at));
    };
    if a != found || b != refused {
        return Err(Refusal::ListingFalse(at));
    }
    let end = next.at;
    if end != listing.len() {
        return Err(Refusal::ListingForm(end));
    }
    Ok(end)
}
