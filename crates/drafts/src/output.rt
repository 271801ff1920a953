// What the drafts print: the lines of records and refusals, which crates/printing writes, and numbers with their names.
ghost use Rattle.std.specs.Prelude.{◌≡◌, ◌≤◌, length};
ghost use Rattle.printing.specs.Lines.{Recorded};

use listing::totals::Totals;
use printing::lines::{write_lines, write_refusal};
use refusals::refusals::Refusal;
use shapes::tables::table;
use std::io;

// Writes bytes as they are.
pub fn print(rt: &HostRuntime, bytes: &[u8]) -> io::Result<()> {
    rt.write_all(bytes)
}

// A line of numbers with one space between.
fn print_line(rt: &HostRuntime, numbers: &[u16]) -> io::Result<()> {
    for (place, n) in numbers.iter().enumerate() {
        let before = if place > 0 { " " } else { "" };
        print!(rt; "{before}{n}")?;
    }
    println!(rt;)
}

// The numbers that were written, under a heading, or the refusal.
pub fn print_numbers(
    rt: &HostRuntime,
    heading: &[u8],
    outcome: Result<(), Refusal>,
    numbers: &[u16],
) -> io::Result<()> {
    print(rt, heading)?;
    match outcome {
        Ok(()) => print_line(rt, numbers),
        Err(why) => print_refusal(rt, why),
    }
}

// The line of a refusal.
fn print_refused(rt: &HostRuntime, why: Refusal) -> io::Result<()> {
    let mut output: [u8; 12] = table(0);
    let length = write_refusal(&mut output, 0, u8::from(why));
    print(rt, &output[..length])
}

// A refusal by its number; under refusal 11 the length that is needed, under 6, 7 and 15 the place in the listing.
pub fn print_refusal(rt: &HostRuntime, why: Refusal) -> io::Result<()> {
    print_refused(rt, why)?;
    match why {
        Refusal::ListingBufferShort(needed) => println!(rt; "needs {needed}"),
        Refusal::ListingForm(at) | Refusal::ListingFalse(at) | Refusal::CursorSpent(at) => {
            println!(rt; "at {at}")
        }
        Refusal::Plain(_) => Ok(()),
    }
}

// What a search counted, and the length of its listing.
pub fn print_totals(rt: &HostRuntime, totals: Totals<u16>) -> io::Result<()> {
    let Totals {
        found,
        refused,
        length,
    } = totals;
    println!(rt; "found {found} refused {refused} length {length}")
}

// What a check counted.
pub fn print_counts(rt: &HostRuntime, found: u16, refused: u16) -> io::Result<()> {
    println!(rt; "found {found} refused {refused}")
}

// A whole listing, a record a line: there is room for the lines of the longest listing that a draft has, 64 bytes.
pub fn print_listing(rt: &HostRuntime, listing: &[u8]) -> io::Result<()>
    requires { Recorded listing.now × (length listing.now ≤ 64) }
{
    let mut output: [u8; 256] = table(0);
    let length = write_lines(&mut output, 0, listing);
    print(rt, &output[..length])
}
