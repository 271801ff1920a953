// Document 01's drafts, and one of ours, each under a heading: the records of its listing a line each, then the totals
// of the search; what the check counts; or the refusal.
#![tactic(auto)]

mod output;
mod running;

use counts::counts::distinct_counts;
use grid::strips::strip_links;
use output::print_numbers;
use running::{run, run_check, run_in};
use shapes::question::Question;
use std::io;

// The first draft's text, 2 by 3.
fn first_text() -> [u8; 6] {
    [7, 7, 3, 3, 7, 7]
}

// The first draft's pattern, 2 by 2.
fn first_pattern() -> [u8; 4] {
    [1, 1, 2, 1]
}

// The first draft, with its links and distinct counts.
fn first_example(rt: &HostRuntime) -> io::Result<()> {
    let text = first_text();
    let pattern = first_pattern();
    let q = Question::new(&text, 2, 3, &pattern, 2, 2);
    run(rt, b"first draft\n", q)?;
    first_links(rt, b"first draft, links of strip 0\n", 0)?;
    first_links(rt, b"first draft, links of strip 1\n", 1)?;
    let mut counts = [0u16; 2];
    let outcome = distinct_counts(&text, 2, 3, 2, 2, &mut counts);
    print_numbers(rt, b"first draft, tallies\n", outcome, &counts)
}

// The links of a strip of the first draft, 2 columns wide.
fn first_links(rt: &HostRuntime, heading: &[u8], left: usize) -> io::Result<()> {
    let mut links = [0u16; 4];
    let outcome = strip_links(&first_text(), 2, 3, 2, left, &mut links);
    print_numbers(rt, heading, outcome, &links)
}

// A draft of one row.
fn run_row(rt: &HostRuntime, heading: &[u8], text: &[u8], pattern: &[u8]) -> io::Result<()> {
    let q = Question::new(text, 1, text.len(), pattern, 1, pattern.len());
    run(rt, heading, q)
}

// The drafts of one cell and of one row.
fn small_drafts(rt: &HostRuntime) -> io::Result<()> {
    run_row(rt, b"1 by 1, sheet 5, motif 5\n", &[5], &[5])?;
    run_row(rt, b"sheet 4 4, motif 1 2\n", &[4, 4], &[1, 2])?;
    run_row(rt, b"sheet 4 5, motif 1 1\n", &[4, 5], &[1, 1])?;
    run_row(rt, b"sheet 4 5 5, motif 1 2 1\n", &[4, 5, 5], &[1, 2, 1])?;
    run_row(rt, b"sheet 4 5 4, motif 1 2 2\n", &[4, 5, 4], &[1, 2, 2])?;
    run_row(rt, b"sheet 2 1, motif 1 2\n", &[2, 1], &[1, 2])
}

// The first draft with a listing buffer a byte too short, and with one that its listing fills.
fn short_buffer(rt: &HostRuntime) -> io::Result<()> {
    let text = first_text();
    let pattern = first_pattern();
    let q = Question::new(&text, 2, 3, &pattern, 2, 2);
    let mut short = [0u8; 20];
    run_in(rt, b"first draft, listing buffer 20\n", q, &mut short)?;
    let mut filled = [0u8; 21];
    run_in(rt, b"first draft, listing buffer 21\n", q, &mut filled)
}

// The longest side, down and across. A text of one symbol, and a pattern of one symbol as large as the text.
fn longest_sides(rt: &HostRuntime) -> io::Result<()> {
    let text = [7u8; 255];
    let pattern = [1u8; 255];
    let down = Question::new(&text, 255, 1, &pattern, 255, 1);
    run(rt, b"side 255, rows of sheet and motif\n", down)?;
    run_row(
        rt,
        b"side 255, columns of sheet and motif\n",
        &text,
        &pattern,
    )
}

// Sides of 0: the cells are right in number, none.
fn empty_sides(rt: &HostRuntime) -> io::Result<()> {
    let none = [0u8; 0];
    let q = Question::new(&none, 0, 1, &[1], 1, 1);
    run(rt, b"side 0, rows of the sheet\n", q)?;
    let q = Question::new(&none, 1, 0, &[1], 1, 1);
    run(rt, b"side 0, columns of the sheet\n", q)?;
    let q = Question::new(&[7], 1, 1, &none, 0, 1);
    run(rt, b"side 0, rows of the motif\n", q)?;
    let q = Question::new(&[7], 1, 1, &none, 1, 0);
    run(rt, b"side 0, columns of the motif\n", q)
}

// Sides of 256: the cells are right in number, 256.
fn long_sides(rt: &HostRuntime) -> io::Result<()> {
    let cells = [7u8; 256];
    let q = Question::new(&cells, 256, 1, &[1], 1, 1);
    run(rt, b"side 256, rows of the sheet\n", q)?;
    let q = Question::new(&cells, 1, 256, &[1], 1, 1);
    run(rt, b"side 256, columns of the sheet\n", q)?;
    let q = Question::new(&[7], 1, 1, &cells, 256, 1);
    run(rt, b"side 256, rows of the motif\n", q)?;
    let q = Question::new(&[7], 1, 1, &cells, 1, 256);
    run(rt, b"side 256, columns of the motif\n", q)
}

// A pattern as large as the text has one window.
fn whole_text(rt: &HostRuntime) -> io::Result<()> {
    let text = first_text();
    let q = Question::new(&text, 2, 3, &[1, 1, 2, 2, 1, 1], 2, 3);
    run(rt, b"motif as large as the sheet, 1 1 2 / 2 1 1\n", q)
}

// The first draft's listing, 21 bytes, and one byte more.
fn first_listing() -> [u8; 22] {
    [
        1, 0, 0, 2, 1, 7, 2, 2, 3, 3, 0, 1, 0, 0, 0, 1, 5, 0, 1, 0, 1, 0,
    ]
}

// The check of a listing for the first draft.
fn check_first(rt: &HostRuntime, heading: &[u8], listing: &[u8]) -> io::Result<()> {
    let text = first_text();
    let pattern = first_pattern();
    let q = Question::new(&text, 2, 3, &pattern, 2, 2);
    run_check(rt, heading, q, listing)
}

// Listings that are kept: the first draft's own, and the same with another true mismatch.
fn kept_listings(rt: &HostRuntime) -> io::Result<()> {
    let mut listing = first_listing();
    check_first(rt, b"check of the first draft\n", &listing[..21])?;
    listing[9] = 4;
    listing[14] = 1;
    listing[15] = 0;
    let heading = b"check of the first draft, mismatch 4 0 1 0 0 1 0 for 3 0 1 0 0 0 1\n";
    check_first(rt, heading, &listing[..21])
}

// Listings that are refused.
fn refused_listings(rt: &HostRuntime) -> io::Result<()> {
    let mut listing = first_listing();
    listing[5] = 3;
    let heading = b"check of the first draft, pair 2 1 3 for 2 1 7\n";
    check_first(rt, heading, &listing[..21])?;
    check_first(rt, b"check of the first draft, empty listing\n", &[])?;
    let longer = first_listing();
    check_first(rt, b"check of the first draft, one byte more\n", &longer)
}

// A listing for text 4 5 4 4 and pattern 1 2, with a closing of these counts.
fn counted_listing(found: u8, refused: u8) -> [u8; 30] {
    [
        1, 0, 0, 2, 1, 4, 2, 2, 5, 1, 0, 1, 2, 1, 5, 2, 2, 4, 4, 0, 2, 0, 0, 0, 1, 5, 0, found, 0,
        refused,
    ]
}

// Two windows found and one refused: with counts that differ, an exchange of the two shows.
fn unequal_counts(rt: &HostRuntime) -> io::Result<()> {
    let text = [4, 5, 4, 4];
    let pattern = [1, 2];
    let q = Question::new(&text, 1, 4, &pattern, 1, 2);
    run(rt, b"sheet 4 5 4 4, motif 1 2\n", q)?;
    let heading = b"check of sheet 4 5 4 4, motif 1 2\n";
    run_check(rt, heading, q, &counted_listing(2, 1))?;
    let exchanged = b"check of sheet 4 5 4 4, motif 1 2, closing 5 0 1 0 2 for 5 0 2 0 1\n";
    run_check(rt, exchanged, q, &counted_listing(1, 2))
}

fn main(rt: HostRuntime) -> io::Result<()> {
    first_example(&rt)?;
    small_drafts(&rt)?;
    short_buffer(&rt)?;
    longest_sides(&rt)?;
    empty_sides(&rt)?;
    long_sides(&rt)?;
    whole_text(&rt)?;
    kept_listings(&rt)?;
    refused_listings(&rt)?;
    unequal_counts(&rt)
}
