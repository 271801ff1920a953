// What the check answers, in numbers.
ghost use Rattle.std.specs.Prelude.{◌≡◌};
ghost use Rattle.refusals.specs.Said.{said_number};
ghost use Rattle.rules.specs.Check.{checked_said};
ghost use Rattle.returned.specs.Returned.{values_by};

use crate::refused::refused_numbers;
use refusals::refusals::{Refusal, answer_number};
use rules::checked::Tally;

// Hands an answer on: its totals are written, found and refused, or what a refusal returns in the first of them; and
// its number is returned.
#[tactic(auto, using(refusals::specs::Said::Laws::number_said))]
pub fn return_counts(answer: Result<Tally, Refusal>, totals: &mut [usize; 2]) -> u8
    ensures number { result ≡ said_number (checked_said answer) }
    ensures totals_after { totals.new ≡ values_by 0 (checked_said answer) totals.old }
{
    let number = answer_number(&answer);
    *totals = match answer {
        Ok(Tally { found, refused }) => [usize::from(found), usize::from(refused)],
        Err(why) => refused_numbers(why, 0, *totals),
    };
    number
}
