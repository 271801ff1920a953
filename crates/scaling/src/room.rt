// By what the search at a scale, and the search at every scale, is refused before it begins: 2 and 3 on the pattern as
// it is given, 17, then the room for what they are lent. The enlarged pattern's sides are all that is asked of it.
ghost use Rattle.std.specs.Prelude.{◌≡◌};
ghost use Rattle.refusals.specs.Said.{outcome_said};
ghost use Rattle.shapes.specs.Questions.{question_in};
ghost use Rattle.flags.specs.Flags.{rooms};
ghost use Rattle.scaled.specs.Scaled.{scaled_shape_said, scaled_room_said, every_room_said};

use crate::fit::{enlarged_shape, largest_scale, scale_outcome};
use refusals::refusals::Refusal;
use rooms::rooms::{links_outcome, windows_outcome};
use shapes::question::Question;

// 2, 3 and 17 in this order: 17 stands in place of 4, which is never given.
#[tactic(auto, unfolding(scaled::specs::Scaled::scaled_shape_said))]
pub fn scaled_shape_outcome(q: Question, k: usize) -> Result<(), Refusal>
    ensures { outcome_said result ≡ scaled_shape_said k (question_in q.entry) }
{
    q.shape.sides_outcome()?;
    q.cells_outcome()?;
    scale_outcome(q.shape, k)
}

// By what the search at a scale is refused before it begins: 9 and 10 are asked for the enlarged pattern.
#[tactic(auto, unfolding(scaled::specs::Scaled::scaled_room_said))]
pub fn scaled_room_outcome(
    q: Question,
    k: usize,
    links: usize,
    counts: usize,
    flags: usize,
) -> Result<(), Refusal>
    ensures { outcome_said result ≡ scaled_room_said k (question_in q.entry) (rooms links counts flags) }
{
    scaled_shape_outcome(q, k)?;
    let enlarged = enlarged_shape(q.shape, k);
    let of_links = links_outcome(enlarged, links);
    let of_windows = windows_outcome(enlarged, counts, flags);
    of_links.and(of_windows)
}

// By what the search at every scale is refused before it begins. The largest scale needs the most links, and the
// pattern as it is has the most windows, so 9 is asked there and 10 here.
#[tactic(auto, unfolding(scaled::specs::Scaled::every_room_said))]
pub fn every_room_outcome(
    q: Question,
    links: usize,
    counts: usize,
    flags: usize,
) -> Result<(), Refusal>
    ensures { outcome_said result ≡ every_room_said (question_in q.entry) (rooms links counts flags) }
{
    scaled_shape_outcome(q, 1)?;
    let largest = enlarged_shape(q.shape, largest_scale(q.shape));
    let of_links = links_outcome(largest, links);
    let of_windows = windows_outcome(q.shape, counts, flags);
    of_links.and(of_windows)
}
