// What a refusal returns, among the numbers that are lent for an answer.
ghost use Rattle.std.specs.Prelude.{◌≡◌, ◌<◌};
ghost use Rattle.refusals.specs.Said.{refusal_said};
ghost use Rattle.returned.specs.Returned.{values_by};

use refusals::refusals::Refusal;

// The numbers after a refusal: what it returns is number k of them, and the rest is as it was.
pub fn refused_numbers<const N: usize>(why: Refusal, k: usize, old: [usize; N]) -> [usize; N]
    requires { k < N }
    ensures { result ≡ values_by k (refusal_said why) old.entry }
{
    let mut numbers = old;
    numbers[k] = why.value().unwrap_or(old[k]);
    numbers
}
