// Document 01's search: every window of a text once, found with its bijection or refused with the two cells that spoil
// it.
ghost use Rattle.std.specs.Prelude.{◌≡◌, length};
ghost use Rattle.theory.specs.Bytes.{Bytes};
ghost use Rattle.shapes.specs.Questions.{asked, question_in};
ghost use Rattle.flags.specs.Flags.{RoomFor, rooms};
ghost use Rattle.searched.specs.Search.{done, lend, listed_of, search_of};

use counting::count::count_flagged;
use lister::list::list_flagged;
use listing::totals::Totals;
use placed::pattern::Pattern;
use refusals::refusals::Refusal;
use rooms::rooms::room_outcome;
use rows::run::FirstEnd;
use shapes::question::Question;
use shapes::shapes::Shape;
use shapes::tables::table;
use totals::pattern::read_pattern;

// The search where nothing but the listing's room is left to ask: what Count does, and then what List does once it
// knows that the flags are the truth, which those just made are. What the pattern says by itself is lent to both, so
// that neither makes again what the other made. It is no part of its callers' frames: one that searches in either of
// two ways has the tables of one of them.
#[inline(never)]
pub fn search_windows<P: Pattern>(
    text: &[u8],
    pattern: P,
    s: Shape,
    links: &mut [u16],
    counts: &mut [u16],
    flags: &mut [u8],
    listing: &mut [u8],
) -> Result<Totals<u16>, Refusal>
    requires { RoomFor (asked text.now (P.cells pattern) s)
        (rooms (length links.old) (length counts.old) (length flags.old)) }
    ensures { done result (lend links.new counts.new flags.new listing.new)
        ≡ listed_of (asked text.now (P.cells pattern) s)
        (lend links.old counts.old flags.old listing.old) }
{
    let known = read_pattern(pattern);
    let mut own = table(FirstEnd { end: 0, earlier: 0 });
    let totals = count_flagged(
        text,
        known.pattern,
        known.count,
        &known.first,
        s,
        &mut own,
        links,
        counts,
        flags,
    );
    list_flagged(text, &known, s, &mut own, Ok(()), totals, flags, listing)
}

// Searches a text for a pattern. Refused by 2, 3, 4, 9, 10, and by 11 once the length of the listing is known. That
// text and pattern are bytes, which their types say, is ensured too, so that demand 3 needs nothing but what stands
// here.
pub fn search(
    q: Question,
    links: &mut [u16],
    counts: &mut [u16],
    flags: &mut [u8],
    listing: &mut [u8],
) -> Result<Totals<u16>, Refusal>
    ensures answer { done result (lend links.new counts.new flags.new listing.new)
        ≡ search_of (question_in q.entry) (lend links.old counts.old flags.old listing.old) }
    ensures bytes { Bytes q.entry.text.now × Bytes q.entry.pattern.now }
{
    room_outcome(q, links.len(), counts.len(), flags.len())?;
    search_windows(q.text, q.pattern, q.shape, links, counts, flags, listing)
}
