// The search at a scale.
ghost use Rattle.std.specs.Prelude.{◌≡◌};
ghost use Rattle.theory.specs.Bytes.{Bytes};
ghost use Rattle.shapes.specs.Questions.{question_in};
ghost use Rattle.searched.specs.Search.{done, lend};
ghost use Rattle.scaled.specs.Scaled.{scaled_of};

use crate::enlarged::search_enlarged;
use listing::totals::Totals;
use refusals::refusals::Refusal;
use scaling::room::scaled_room_outcome;
use shapes::question::Question;

// Searches a text for a pattern of which each cell is drawn as scale by scale cells. Refused by 2 and 3, on the pattern
// as it is given, by 17 where the scale is 0 or the enlarged pattern does not fit, by 9, 10, and by 11 once the length
// of the listing is known. All else is the search for the enlarged pattern, and cells are named in it.
pub fn search_scaled(
    q: Question,
    scale: usize,
    links: &mut [u16],
    counts: &mut [u16],
    flags: &mut [u8],
    listing: &mut [u8],
) -> Result<Totals<u16>, Refusal>
    ensures answer { done result (lend links.new counts.new flags.new listing.new)
        ≡ scaled_of scale (question_in q.entry) (lend links.old counts.old flags.old listing.old) }
    ensures bytes { Bytes q.entry.text.now × Bytes q.entry.pattern.now }
{
    scaled_room_outcome(q, scale, links.len(), counts.len(), flags.len())?;
    search_enlarged(q, scale, links, counts, flags, listing)
}
