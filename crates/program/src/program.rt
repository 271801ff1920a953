// The program's answer: what it prints for an input, byte for byte.
ghost use Rattle.std.specs.Prelude.{◌≡◌, ◌≤◌, length, take};
ghost use Rattle.io.specs.Counts.{IsPrefixLen};
ghost use Rattle.refusals.specs.Refusals.{number_of};
ghost use Rattle.printing.specs.Lines.{refusal_line, Recorded};
ghost use Rattle.printing.specs.Lines.Front.{Begins, BeginsWithLines};
ghost use Rattle.program.specs.Program.{output_of};
ghost use Rattle.input.specs.Input.{RightInput};

use input::input::input_outcome;
use printing::lines::{write_lines, write_refusal};
use refusals::refusals::Refusal;
use search::search::search;
use shapes::question::Question;
use shapes::tables::table;

// The first length bytes are the output. The longest listing has 65,536 bytes, and a byte of it takes at most four.
#[derive(Drop)]
pub struct Output {
    pub bytes: [u8; 262144],
    pub length: usize,
}

// The output of a refused input.
fn refused_output(why: Refusal) -> Output
    ensures { Begins result.length result.bytes (refusal_line (number_of why)) }
{
    let mut bytes = table(0);
    let length = write_refusal(&mut bytes, 0, u8::from(why));
    Output { bytes, length }
}

// The output of a listing: the lines of its records.
fn listed_output(listing: &[u8]) -> Output
    requires { Recorded listing.now × (length listing.now ≤ 65536) }
    ensures { BeginsWithLines listing.now result.length result.bytes }
{
    let mut bytes = table(0);
    let length = write_lines(&mut bytes, 0, listing);
    Output { bytes, length }
}

// The output of an input that is not refused before it is searched.
fn searched_output(input: &[u8]) -> Output
    requires { RightInput input.now }
    ensures { Begins result.length result.bytes (output_of input.now) }
{
    let rows = usize::from(input[0]);
    let columns = usize::from(input[1]);
    let height = usize::from(input[2]);
    let width = usize::from(input[3]);
    let cut = 4 + rows * columns;
    let text = &input[4..cut];
    let pattern = &input[cut..];
    // An entry for each cell of the largest text, and the longest listing.
    let mut links: [u16; 16384] = table(0);
    let mut counts: [u16; 16384] = table(0);
    let mut flags: [u8; 16384] = table(0);
    let mut listing: [u8; 65536] = table(0);
    let q = Question::new(text, rows, columns, pattern, height, width);
    let answer = search(q, &mut links, &mut counts, &mut flags, &mut listing);
    match answer {
        Ok(totals) => listed_output(&listing[..totals.length]),
        Err(why) => refused_output(why),
    }
}

// What the program prints for an input.
pub fn answer(input: &[u8]) -> Output
    ensures prefix_len { IsPrefixLen result.length result.bytes }
    ensures output { take result.length result.bytes ≡ output_of input.now }
{
    match input_outcome(input) {
        Err(why) => refused_output(why),
        Ok(()) => searched_output(input),
    }
}
