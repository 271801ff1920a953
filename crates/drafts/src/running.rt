// A draft run: the search over buffers of its own, or the check of a listing, and the answer printed.
ghost use Rattle.std.specs.Prelude.{◌≤◌, length};

use crate::output::{print, print_counts, print_listing, print_refusal, print_totals};
use rules::checked::Tally;
use search::search::search;
use shapes::question::Question;
use std::io;
use verify::check::check;

// Searches with the listing buffer that is lent, and prints, under a heading, the records of the listing and the totals,
// or the refusal.
pub fn run_in(rt: &HostRuntime, heading: &[u8], q: Question, listing: &mut [u8]) -> io::Result<()>
    requires { length listing.old ≤ 64 }
{
    print(rt, heading)?;
    let mut links = [0u16; 256];
    let mut counts = [0u16; 256];
    let mut flags = [0u8; 256];
    let answer = search(q, &mut links, &mut counts, &mut flags, listing);
    match answer {
        Ok(totals) => {
            print_listing(rt, &listing[..totals.length])?;
            print_totals(rt, totals)
        }
        Err(why) => print_refusal(rt, why),
    }
}

// The same with a listing buffer that is long enough for every draft.
pub fn run(rt: &HostRuntime, heading: &[u8], q: Question) -> io::Result<()> {
    let mut listing = [0u8; 64];
    run_in(rt, heading, q, &mut listing)
}

// Checks a listing, and prints, under a heading, what stands in it as found and as refused, or the refusal with the
// place of the first bad record.
pub fn run_check(rt: &HostRuntime, heading: &[u8], q: Question, listing: &[u8]) -> io::Result<()> {
    print(rt, heading)?;
    match check(q, listing) {
        Ok(Tally { found, refused }) => print_counts(rt, found, refused),
        Err(why) => print_refusal(rt, why),
    }
}
