// Bijections as two columns, in which 256 stands for no image and no preimage.
ghost use Rattle.std.specs.Prelude.{◌≡◌};
ghost use Rattle.refusals.specs.Said.{said_number};
ghost use Rattle.mapping.specs.Bijections.{renamed};
ghost use Rattle.values.specs.Bijections.{from_columns};

use mapping::bijections::Bijection;
use refusals::refusals::{Refusal, answer_number};

// The bijection that two columns hold. No `From`: a bijection's type is of another crate, and so are arrays.
pub fn bijection_in(forward: &[u16; 256], backward: &[u16; 256]) -> Bijection
    ensures { result ≡ from_columns forward.now backward.now }
{
    Bijection {
        forward: *forward,
        backward: *backward,
    }
}

// Writes a bijection's columns.
pub fn write_columns(b: Bijection, forward: &mut [u16; 256], backward: &mut [u16; 256])
    ensures { from_columns forward.new backward.new ≡ b }
{
    let Bijection {
        forward: images,
        backward: preimages,
    } = b;
    *forward = images;
    *backward = preimages;
}

// Writes the columns of an answer, where it is not refused, and gives its number.
pub fn write_answer(
    answer: Result<Bijection, Refusal>,
    forward: &mut [u16; 256],
    backward: &mut [u16; 256],
) -> u8
    ensures number { result ≡ said_number (renamed (from_columns forward.old backward.old) answer).said }
    ensures bijection_after { from_columns forward.new backward.new
        ≡ (renamed (from_columns forward.old backward.old) answer).bijection }
{
    if let Ok(b) = answer {
        write_columns(b, forward, backward);
    }
    answer_number(&answer)
}
