// What the one-window question answers, in numbers.
ghost use Rattle.std.specs.Prelude.{◌≡◌};
ghost use Rattle.refusals.specs.Said.{said_number, said_values, new_by};
ghost use Rattle.matching.specs.Compare.{verdict_said, told};
ghost use Rattle.matching.specs.declared.compare.Verdict.TheVariants.{Mismatch};
ghost use Rattle.values.specs.Bijections.{from_columns};
ghost use Rattle.values.specs.Compare.{three_by};

use crate::bijections::write_columns;
use mapping::bijections::Bijection;
use matching::compare::Verdict;
use refusals::refusals::{Refusal, answer_number};

// The values of a mismatch: the kind of its record, 3 or 4 by the side alike, and its cells.
pub fn mismatch_values(alike_in_pattern: bool, earlier: usize, later: usize) -> [usize; 3]
    ensures { result ≡ said_values (verdict_said (Mismatch alike_in_pattern earlier later)) }
{
    if alike_in_pattern {
        return [3, earlier, later];
    }
    [4, earlier, later]
}

// Writes an answer, where it is not refused, and gives its number. A match has zeros for a mismatch, and a mismatch the
// empty bijection.
pub fn write_verdict(
    answer: Result<Verdict, Refusal>,
    forward: &mut [u16; 256],
    backward: &mut [u16; 256],
    mismatch: &mut [usize; 3],
) -> u8
    ensures number { result ≡ said_number (told answer).said }
    ensures bijection_after { from_columns forward.new backward.new
        ≡ new_by (told answer).said (told answer).bijection (from_columns forward.old backward.old) }
    ensures mismatch_after { mismatch.new ≡ three_by (told answer).said mismatch.old }
{
    match answer {
        Ok(Verdict::Match(b)) => {
            write_columns(b, forward, backward);
            *mismatch = [0, 0, 0];
        }
        Ok(
            Verdict::Mismatch {
                alike_in_pattern,
                earlier,
                later,
            },
        ) => {
            write_columns(Bijection::empty(), forward, backward);
            *mismatch = mismatch_values(alike_in_pattern, earlier, later);
        }
        Err(_) => {}
    }
    answer_number(&answer)
}
