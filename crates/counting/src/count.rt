// Document 02's R-1, count first: links, counts and flags as the search leaves them, the windows found and refused, and
// the length that the listing will have.
// Links, counts and flags are lent one by one: in one struct of `&mut` each clause would name them through old and new.
ghost use Rattle.std.specs.Prelude.{◌≡◌, length, get_or};
ghost use Rattle.theory.specs.Bytes.{Bytes};
ghost use Rattle.shapes.specs.Questions.{asked, question_in};
ghost use Rattle.shapes.specs.Shapes.{down};
ghost use Rattle.occurrences.specs.Distinct.{distinct};
ghost use Rattle.prefixes.specs.State.{FirstPlaces};
ghost use Rattle.sweep.specs.Sweep.{OwnSoFar};
ghost use Rattle.flags.specs.Flags.{RoomFor, rooms, working, work_after};
ghost use Rattle.entries.specs.Listing.Totals.{totals_in};
ghost use Rattle.searched.specs.Search.{count_done, count_of};

use flagged::windows::flag_all;
use listing::totals::Totals;
use placed::pattern::Pattern;
use refusals::refusals::Refusal;
use rooms::rooms::room_outcome;
use rows::run::FirstEnd;
use shapes::question::Question;
use shapes::shapes::Shape;
use shapes::tables::table;
use totals::pattern::read_pattern;
use totals::totals::totals_of;

// What Count does once nothing is left to refuse, and what the search begins with: the flags, and their totals, where
// the pattern has so many symbols, with these first places, and own ends as far as they were made. A table that is read
// for each cell is copied once: what stands in the function's own frame is read without a register for its place. Number
// and places are no struct: where a reference to the places lies in one, what is known stands twice in a caller's frame.
pub fn count_flagged<P: Pattern>(
    text: &[u8],
    pattern: P,
    symbols: u16,
    first: &[usize; 256],
    s: Shape,
    own: &mut [FirstEnd; 256],
    links: &mut [u16],
    counts: &mut [u16],
    flags: &mut [u8],
) -> Totals<u16>
    requires { RoomFor (asked text.now (P.cells pattern) s)
        (rooms (length links.old) (length counts.old) (length flags.old))
        × (symbols ≡ distinct (P.cells pattern))
        × FirstPlaces (λ k. get_or (P.cells pattern) k 0) (length (P.cells pattern)) first.now
        × OwnSoFar (P.cells pattern) s.width (down s) own.old }
    ensures buffers { working links.new counts.new flags.new
        ≡ work_after (asked text.now (P.cells pattern) s)
        (working links.old counts.old flags.old) }
    ensures totals { result ≡ totals_in (asked text.now (P.cells pattern) s) }
    ensures own_so_far { OwnSoFar (P.cells pattern) s.width (down s) own.new }
{
    let n = s.windows();
    let places = *first;
    flag_all(
        text, pattern, &places, own, symbols, s, links, counts, flags,
    );
    totals_of(symbols, &flags[..n])
}

// The same with nothing known of the pattern: what it says by itself is found first. It is no part of its callers'
// frames, as the search is none.
#[inline(never)]
pub fn count_laid<P: Pattern>(
    text: &[u8],
    pattern: P,
    s: Shape,
    links: &mut [u16],
    counts: &mut [u16],
    flags: &mut [u8],
) -> Totals<u16>
    requires { RoomFor (asked text.now (P.cells pattern) s)
        (rooms (length links.old) (length counts.old) (length flags.old)) }
    ensures buffers { working links.new counts.new flags.new
        ≡ work_after (asked text.now (P.cells pattern) s)
        (working links.old counts.old flags.old) }
    ensures totals { result ≡ totals_in (asked text.now (P.cells pattern) s) }
{
    let known = read_pattern(pattern);
    let mut own = table(FirstEnd { end: 0, earlier: 0 });
    count_flagged(
        text,
        known.pattern,
        known.count,
        &known.first,
        s,
        &mut own,
        links,
        counts,
        flags,
    )
}

// Counts the windows of a text that a pattern matches, and those that it does not. Refused by 2, 3, 4, 9, 10; there is
// no 11, since no listing is lent.
pub fn count_windows(
    q: Question,
    links: &mut [u16],
    counts: &mut [u16],
    flags: &mut [u8],
) -> Result<Totals<u16>, Refusal>
    ensures answer { count_done result (working links.new counts.new flags.new)
        ≡ count_of (question_in q.entry) (working links.old counts.old flags.old) }
    ensures bytes { Bytes q.entry.text.now × Bytes q.entry.pattern.now }
{
    room_outcome(q, links.len(), counts.len(), flags.len())?;
    let totals = count_laid(q.text, q.pattern, q.shape, links, counts, flags);
    Ok(totals)
}
