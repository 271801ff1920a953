// Document 02's R-1, list later: the listing from flags that someone hands over. They are held against the truth before
// anything is written.
ghost use Rattle.std.specs.Prelude.{◌≡◌, ◌*◌, ◌≤◌, length};
ghost use Rattle.theory.specs.Bytes.{Bytes};
ghost use Rattle.refusals.specs.Said.{◌then◌, check, filled_by, outcome_said};
ghost use Rattle.shapes.specs.Questions.{asked, question_in, windows_of, Posed};
ghost use Rattle.shapes.specs.Shapes.{across, down};
ghost use Rattle.sweep.specs.Sweep.{OwnSoFar, SweepAt};
ghost use Rattle.flags.specs.Flags.{flags_truth};
ghost use Rattle.entries.specs.Listing.{search_listing};
ghost use Rattle.searched.specs.Search.{listed_said, list_done, list_of};
ghost use Rattle.lister.specs.Steps.{Trusted};

use listing::totals::Totals;
use placed::pattern::Pattern;
use refusals::refusals::{Reason, Refusal};
use rooms::rooms::{flags_room_outcome, listing_room_outcome};
use rows::run::FirstEnd;
use shapes::question::Question;
use shapes::shapes::Shape;
use shapes::tables::table;
use totals::pattern::{Known, read_pattern};
use totals::totals::totals_of;
use truth::strips::flags_true;
use writer::writing::write_listing;

// What List does once the flags are judged, and what the search ends with: what refused them, where something did, then
// 11, or the listing. The table of own ends is of no use to anyone afterwards, and nothing is said of it. What it makes
// itself lies in a frame of its own, and not in its callers', which call what comes before it too.
#[inline(never)]
pub fn list_flagged<P: Pattern>(
    text: &[u8],
    known: &Known<P>,
    s: Shape,
    own: &mut [FirstEnd; 256],
    judged: Result<(), Refusal>,
    totals: Totals<u16>,
    flags: &[u8],
    listing: &mut [u8],
) -> Result<Totals<u16>, Refusal>
    requires { Trusted text.now (P.cells known.now.pattern) s judged flags.now totals
        × OwnSoFar (P.cells known.now.pattern) s.width (down s) own.old }
    ensures { list_done result listing.new
        ≡ filled_by
        (outcome_said judged
        then listed_said (asked text.now (P.cells known.now.pattern) s) (length listing.old))
        (search_listing (asked text.now (P.cells known.now.pattern) s)) listing.old }
{
    judged.and(listing_room_outcome(listing.len(), totals.length))?;
    write_listing(text, known, s, own, totals, flags, listing);
    Ok(totals)
}

// 16: the flags are not the truth.
fn truth_outcome<P: Pattern>(
    text: &[u8],
    known: &Known<P>,
    s: Shape,
    own: &mut [FirstEnd; 256],
    flags: &[u8],
) -> Result<(), Refusal>
    requires { SweepAt text.now s (P.cells known.now.pattern) known.now.first own.old
        × (down s * across s ≤ length flags.now) }
    ensures judged { outcome_said result
        ≡ check (flags_truth (asked text.now (P.cells known.now.pattern) s) flags.now) 16 }
    ensures own_so_far { OwnSoFar (P.cells known.now.pattern) s.width (down s) own.new }
{
    let pattern = known.pattern;
    let first = known.first;
    Reason::FlagsFalse.unless(flags_true(text, pattern, s, &first, own, flags))
}

// List where 2, 3, 4 and 10 refuse nothing: 16, then 11, or the listing. The totals of flags that are not the truth are
// of no use to anyone, and are not looked at.
fn list_posed<P: Pattern>(
    text: &[u8],
    pattern: P,
    s: Shape,
    flags: &[u8],
    listing: &mut [u8],
) -> Result<Totals<u16>, Refusal>
    requires { Posed (asked text.now (P.cells pattern) s)
        × (windows_of (asked text.now (P.cells pattern) s) ≤ length flags.now) }
    ensures { list_done result listing.new
        ≡ filled_by
        (check (flags_truth (asked text.now (P.cells pattern) s) flags.now) 16
        then listed_said (asked text.now (P.cells pattern) s) (length listing.old))
        (search_listing (asked text.now (P.cells pattern) s)) listing.old }
{
    let known = read_pattern(pattern);
    let mut own = table(FirstEnd { end: 0, earlier: 0 });
    let judged = truth_outcome(text, &known, s, &mut own, flags);
    let totals = totals_of(known.count, &flags[..s.windows()]);
    list_flagged(text, &known, s, &mut own, judged, totals, flags, listing)
}

// Writes the listing of a search from flags. Refused by 2, 3, 4, by 10 where the flags are fewer than the windows, by
// 16 where they are not the truth, and by 11. No links and no counts are lent: the flags are judged strip by strip,
// from text and pattern alone.
pub fn list_windows(q: Question, flags: &[u8], listing: &mut [u8]) -> Result<Totals<u16>, Refusal>
    ensures answer { list_done result listing.new ≡ list_of (question_in q.entry) flags.now listing.old }
    ensures bytes { Bytes q.entry.text.now × Bytes q.entry.pattern.now }
{
    flags_room_outcome(q, flags.len())?;
    list_posed(q.text, q.pattern, q.shape, flags, listing)
}
