// The search at every scale that fits, the smallest first: all are counted, and where there is room for all listings
// they are written one after the other. The flags of a scale are made again for its listing: those of the next scale
// are written over them.
ghost use Rattle.std.specs.Prelude.{◌≡◌, ◌+◌, ◌≤◌, length};
ghost use Rattle.theory.specs.Bytes.{Bytes};
ghost use Rattle.theory.specs.Written.{written};
ghost use Rattle.refusals.specs.Said.{over_front};
ghost use Rattle.shapes.specs.Questions.{question_in};
ghost use Rattle.flags.specs.Flags.{RoomFor, rooms, working, work_after};
ghost use Rattle.entries.specs.Listing.{needed_length, search_listing};
ghost use Rattle.searched.specs.Search.{lend};
ghost use Rattle.scaled.specs.Scaled.{scaled, largest_of, length_to, works_to, listings_to};
ghost use Rattle.scaled.specs.Scaled.{every_listed, every_of, summed};
ghost use Rattle.scaled.specs.Scaled.Fit.{PosedAt, EveryRoom};
ghost use Rattle.scales.specs.Every.{totals_to};

use crate::enlarged::{count_enlarged, search_enlarged};
use listing::totals::Totals;
use refusals::refusals::Refusal;
use rooms::rooms::listing_room_outcome;
use scaling::fit::largest_scale;
use scaling::room::every_room_outcome;
use shapes::question::Question;

// Counts at every scale from 1 to the largest, and adds up: one scale's counts have 16 bits, the sums do not. Links,
// counts and flags are written afresh for each, from their start.
fn count_scales(
    q: Question,
    largest: usize,
    links: &mut [u16],
    counts: &mut [u16],
    flags: &mut [u8],
) -> Totals<usize>
    requires { EveryRoom (question_in q)
        (rooms (length links.old) (length counts.old) (length flags.old))
        × (largest ≡ largest_of (question_in q)) }
    ensures buffers { working links.new counts.new flags.new
        ≡ works_to (question_in q.entry) largest (working links.old counts.old flags.old) }
    ensures totals { result ≡ totals_to (question_in q.entry) largest }
{
    let mut sums = Totals {
        found: 0,
        refused: 0,
        length: 0,
    };
    // From 0, since k scales are counted before round k, and `1..=largest` would return from inside its last round.
    for k in 0..largest {
        let totals = count_enlarged(q, k + 1, links, counts, flags);
        sums = Totals {
            found: sums.found + usize::from(totals.found),
            refused: sums.refused + usize::from(totals.refused),
            length: sums.length + totals.length,
        };
    }
    sums
}

// The listing of one scale from place at on, and its length. There is room for it, so that no search is refused.
fn list_scale(
    q: Question,
    k: usize,
    links: &mut [u16],
    counts: &mut [u16],
    flags: &mut [u8],
    listing: &mut [u8],
    at: usize,
) -> usize
    requires { PosedAt k (question_in q) × RoomFor (scaled k (question_in q))
        (rooms (length links.old) (length counts.old) (length flags.old))
        × (at + needed_length (scaled k (question_in q)) ≤ length listing.old) }
    ensures buffers { working links.new counts.new flags.new
        ≡ work_after (scaled k (question_in q.entry)) (working links.old counts.old flags.old) }
    ensures listing_after { listing.new ≡ written listing.old at (search_listing (scaled k (question_in q.entry))) }
    ensures length { result ≡ needed_length (scaled k (question_in q.entry)) }
{
    let rest = &mut listing[at..];
    let Ok(totals) = search_enlarged(q, k, links, counts, flags, rest) else {
        unreachable!()
    };
    totals.length
}

// The listings of all scales, one after the other, where there is room for them.
fn list_scales(
    q: Question,
    largest: usize,
    links: &mut [u16],
    counts: &mut [u16],
    flags: &mut [u8],
    listing: &mut [u8],
)
    requires { EveryRoom (question_in q)
        (rooms (length links.old) (length counts.old) (length flags.old))
        × (largest ≡ largest_of (question_in q))
        × (length_to (question_in q) largest ≤ length listing.old) }
    ensures buffers { working links.new counts.new flags.new
        ≡ works_to (question_in q.entry) largest (working links.old counts.old flags.old) }
    ensures listing_after { listing.new ≡ over_front (listings_to (question_in q.entry) largest) listing.old }
{
    let mut at = 0;
    for k in 0..largest {
        at += list_scale(q, k + 1, links, counts, flags, listing, at);
    }
}

// The search at every scale where nothing but the listing's room is left to ask: 11 by the length of all listings.
fn search_every(
    q: Question,
    links: &mut [u16],
    counts: &mut [u16],
    flags: &mut [u8],
    listing: &mut [u8],
) -> Result<Totals<usize>, Refusal>
    requires { EveryRoom (question_in q)
        (rooms (length links.old) (length counts.old) (length flags.old)) }
    ensures { summed result (lend links.new counts.new flags.new listing.new)
        ≡ every_listed (question_in q.entry) (lend links.old counts.old flags.old listing.old) }
{
    let largest = largest_scale(q.shape);
    let sums = count_scales(q, largest, links, counts, flags);
    listing_room_outcome(listing.len(), sums.length)?;
    list_scales(q, largest, links, counts, flags, listing);
    Ok(sums)
}

// Searches a text for a pattern at every scale that fits. Refused by 2 and 3, by 17 where not even scale 1 fits, by 9
// where the links are too few for the largest scale, by 10 where there is no room for the windows of scale 1, and by 11
// once the length of all listings is known.
pub fn search_scales(
    q: Question,
    links: &mut [u16],
    counts: &mut [u16],
    flags: &mut [u8],
    listing: &mut [u8],
) -> Result<Totals<usize>, Refusal>
    ensures answer { summed result (lend links.new counts.new flags.new listing.new)
        ≡ every_of (question_in q.entry) (lend links.old counts.old flags.old listing.old) }
    ensures bytes { Bytes q.entry.text.now × Bytes q.entry.pattern.now }
{
    every_room_outcome(q, links.len(), counts.len(), flags.len())?;
    search_every(q, links, counts, flags, listing)
}
