// What the search answers, at one scale and at every scale, in numbers.
ghost use Rattle.std.specs.Prelude.{◌≡◌, ℕ};
ghost use Rattle.refusals.specs.Said.{said_number};
ghost use Rattle.returned.specs.Returned.{totals_said, values_by};

use crate::refused::refused_numbers;
use listing::totals::Totals;
use refusals::refusals::{Refusal, answer_number};

// How many windows: of one scale that takes 16 bits, of all scales together more. A trait of its own: `usize: From<N>`
// gives a contract a relation between two numbers, and not the number that a count is.
pub trait Number: Copy {
    ghost number: { Self → ℕ };

    fn wide(self) -> usize
        ensures { result ≡ number self };
}

impl Number for u16 {
    ghost number = { λ n. n };

    fn wide(self) -> usize {
        usize::from(self)
    }
}

impl Number for usize {
    ghost number = { λ n. n };

    fn wide(self) -> usize {
        self
    }
}

// Hands an answer on: its totals are written, found, refused and length, or what a refusal returns in the last of them;
// and its number is returned.
#[tactic(auto, using(refusals::specs::Said::Laws::number_said))]
pub fn return_totals<N: Number>(answer: Result<Totals<N>, Refusal>, totals: &mut [usize; 3]) -> u8
    ensures number { result ≡ said_number (totals_said N.number answer) }
    ensures totals_after { totals.new ≡ values_by 2 (totals_said N.number answer) totals.old }
{
    let number = answer_number(&answer);
    *totals = match answer {
        Ok(t) => [t.found.wide(), t.refused.wide(), t.length],
        Err(why) => refused_numbers(why, 2, *totals),
    };
    number
}
