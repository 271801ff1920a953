// Count and the search for a pattern that lies enlarged, at a scale that fits and where there is room. Two functions of
// one form: what is called below is generic in how the pattern lies, and no closure that one function took could be.
ghost use Rattle.std.specs.Prelude.{◌≡◌, length};
ghost use Rattle.shapes.specs.Questions.{question_in};
ghost use Rattle.flags.specs.Flags.{RoomFor, rooms, working, work_after};
ghost use Rattle.entries.specs.Listing.Totals.{totals_in};
ghost use Rattle.searched.specs.Search.{done, lend, listed_of};
ghost use Rattle.scaled.specs.Scaled.{scaled};
ghost use Rattle.scaled.specs.Scaled.Fit.{PosedAt};

use counting::count::count_laid;
use listing::totals::Totals;
use refusals::refusals::Refusal;
use scaling::enlarging::enlarged_pattern;
use scaling::fit::enlarged_shape;
use search::search::search_windows;
use shapes::question::Question;

// Count for the pattern enlarged k times. At scale 1 it lies as it is, and is read as it is: an `Enlarged` would turn
// each position into a place all the same, and half the time of such a search is the turning.
pub fn count_enlarged(
    q: Question,
    k: usize,
    links: &mut [u16],
    counts: &mut [u16],
    flags: &mut [u8],
) -> Totals<u16>
    requires { PosedAt k (question_in q) × RoomFor (scaled k (question_in q))
        (rooms (length links.old) (length counts.old) (length flags.old)) }
    ensures buffers { working links.new counts.new flags.new
        ≡ work_after (scaled k (question_in q.entry)) (working links.old counts.old flags.old) }
    ensures totals { result ≡ totals_in (scaled k (question_in q.entry)) }
{
    if k == 1 {
        return count_laid(q.text, q.pattern, q.shape, links, counts, flags);
    }
    let laid = enlarged_pattern(q, k);
    let e = enlarged_shape(q.shape, k);
    count_laid(q.text, laid, e, links, counts, flags)
}

// The search for the pattern enlarged k times: 11, or the listing. At scale 1 as above.
pub fn search_enlarged(
    q: Question,
    k: usize,
    links: &mut [u16],
    counts: &mut [u16],
    flags: &mut [u8],
    listing: &mut [u8],
) -> Result<Totals<u16>, Refusal>
    requires { PosedAt k (question_in q) × RoomFor (scaled k (question_in q))
        (rooms (length links.old) (length counts.old) (length flags.old)) }
    ensures { done result (lend links.new counts.new flags.new listing.new)
        ≡ listed_of (scaled k (question_in q.entry)) (lend links.old counts.old flags.old listing.old) }
{
    if k == 1 {
        return search_windows(q.text, q.pattern, q.shape, links, counts, flags, listing);
    }
    let laid = enlarged_pattern(q, k);
    let e = enlarged_shape(q.shape, k);
    search_windows(q.text, laid, e, links, counts, flags, listing)
}
