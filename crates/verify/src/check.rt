// Document 01's check of a listing: every window in order, found with its pairs or refused with two cells that spoil
// it, then the closing, then the end.
ghost use Rattle.std.specs.Prelude.{◌≡◌};
ghost use Rattle.theory.specs.Bytes.{Bytes};
ghost use Rattle.shapes.specs.Questions.{Posed, question_in};
ghost use Rattle.rules.specs.Check.{checked_said, listing_said, check_of};

use crate::windows::{Passed, check_windows};
use refusals::refusals::Refusal;
use rules::checked::Tally;
use rules::closing::check_closing;
use shapes::question::Question;

// The check where sides and cells are good.
fn check_listing(q: Question, listing: &[u8]) -> Result<Tally, Refusal>
    requires { Posed (question_in q) }
    ensures { checked_said result ≡ listing_said (question_in q.entry) listing.now }
{
    let Passed { at, found } = check_windows(q, listing)?;
    // At most 65,025, by `as`: `try_from` would have a way out that no value takes.
    let refused = (q.shape.windows() - usize::from(found)) as u16;
    let _end = check_closing(listing, found, refused, at)?;
    Ok(Tally { found, refused })
}

// Checks a listing for a text and a pattern. Refused by 2, 3, 4, then by 6 or 7 with the place of the first bad record.
// That text, pattern and listing are bytes, which their types say, is ensured too, so that demand 3 needs nothing but
// what stands here.
#[tactic(auto, unfolding(rules::specs::Check::check_of))]
pub fn check(q: Question, listing: &[u8]) -> Result<Tally, Refusal>
    ensures answer { checked_said result ≡ check_of (question_in q.entry) listing.now }
    ensures bytes { Bytes q.entry.text.now × Bytes q.entry.pattern.now × Bytes listing.now }
{
    q.question_outcome()?;
    check_listing(q, listing)
}
