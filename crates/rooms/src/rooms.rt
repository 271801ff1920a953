// By what the search, Count and List are refused before they begin: the question, then the room for what they are
// lent.
ghost use Rattle.std.specs.Prelude.{◌≡◌, ◌∷◌, [], ◌≤◌, leb};
ghost use Rattle.refusals.specs.Said.{outcome_said, check_with};
ghost use Rattle.shapes.specs.Questions.{question_in};
ghost use Rattle.shapes.specs.Shapes.{Sized};
ghost use Rattle.flags.specs.Flags.{rooms};
ghost use Rattle.rooms.specs.Rooms.{links_said, windows_said, room_said, flags_room_said};

use refusals::refusals::{Reason, Refusal};
use shapes::question::Question;
use shapes::shapes::Shape;

// 9: so many links are fewer than a strip has positions.
#[tactic(auto, unfolding(crate::specs::Rooms::links_said))]
pub fn links_outcome(s: Shape, links: usize) -> Result<(), Refusal>
    requires { (s.rows ≤ 255) × (s.width ≤ 255) }
    ensures { outcome_said result ≡ links_said s links }
{
    Reason::LinksBufferShort.unless(s.rows * s.width <= links)
}

// 10: so many counts or flags are fewer than there are windows.
#[tactic(auto, unfolding(crate::specs::Rooms::windows_said))]
pub fn windows_outcome(s: Shape, counts: usize, flags: usize) -> Result<(), Refusal>
    requires { (s.rows ≤ 255) × (s.columns ≤ 255) × (s.height ≤ s.rows) × (s.width ≤ s.columns) }
    ensures { outcome_said result ≡ windows_said s counts flags }
{
    let windows = s.windows();
    Reason::WindowBufferShort.unless(windows <= counts && windows <= flags)
}

// By what the search is refused before it begins, and Count.
#[tactic(auto, unfolding(crate::specs::Rooms::room_said, crate::specs::Rooms::links_said, crate::specs::Rooms::windows_said))]
pub fn room_outcome(q: Question, links: usize, counts: usize, flags: usize) -> Result<(), Refusal>
    ensures { outcome_said result ≡ room_said (question_in q.entry) (rooms links counts flags) }
{
    q.question_outcome()?;
    links_outcome(q.shape, links)?;
    windows_outcome(q.shape, counts, flags)
}

// By what List is refused before the flags are looked at, of which it is lent so many.
#[tactic(auto, unfolding(crate::specs::Rooms::flags_room_said))]
pub fn flags_room_outcome(q: Question, flags: usize) -> Result<(), Refusal>
    ensures { outcome_said result ≡ flags_room_said (question_in q.entry) flags }
{
    q.question_outcome()?;
    Reason::WindowBufferShort.unless(q.shape.windows() <= flags)
}

// By what a buffer of so many bytes is refused for a listing of that length.
pub fn listing_room_outcome(listing: usize, length: usize) -> Result<(), Refusal>
    ensures { outcome_said result ≡ check_with (leb length listing) 11 (length ∷ []) }
{
    Refusal::ListingBufferShort(length).unless(length <= listing)
}
