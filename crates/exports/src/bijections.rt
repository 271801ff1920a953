// Bijections for Rust and C: a bijection passes as its two columns, in which 256 stands for no image and no preimage.
// An operation takes the columns and leaves its answer's there; refused, it leaves them as they were.
ghost use Rattle.std.specs.Prelude.{◌≡◌};
ghost use Rattle.mapping.specs.Bijections.{empty_bijection, pair_of, invert_of, compose_of};
ghost use Rattle.refusals.specs.Said.{said_number};
ghost use Rattle.values.specs.Bijections.{from_columns};

use composing::compose::compose;
use mapping::bijections::Bijection;
use values::bijections::{bijection_in, write_answer, write_columns};

// The bijection with no pair.
#[unsafe(no_mangle)]
pub extern "C" fn colourway_bijection_empty(forward: &mut [u16; 256], backward: &mut [u16; 256])
    ensures { from_columns forward.new backward.new ≡ empty_bijection }
{
    write_columns(Bijection::empty(), forward, backward);
}

// Pairs the pattern symbol a with the text symbol c: document 01's mating.
#[unsafe(no_mangle)]
pub extern "C" fn colourway_bijection_pair(
    forward: &mut [u16; 256],
    backward: &mut [u16; 256],
    a: u8,
    c: u8,
) -> u8
    ensures number { result ≡ said_number (pair_of (from_columns forward.old backward.old) a c).said }
    ensures bijection_after { from_columns forward.new backward.new
        ≡ (pair_of (from_columns forward.old backward.old) a c).bijection }
{
    let paired = bijection_in(forward, backward).pair(a, c);
    write_answer(paired, forward, backward)
}

// Exchanges the columns.
#[unsafe(no_mangle)]
pub extern "C" fn colourway_bijection_invert(
    forward: &mut [u16; 256],
    backward: &mut [u16; 256],
) -> u8
    ensures number { result ≡ said_number (invert_of (from_columns forward.old backward.old)).said }
    ensures bijection_after { from_columns forward.new backward.new
        ≡ (invert_of (from_columns forward.old backward.old)).bijection }
{
    let inverted = bijection_in(forward, backward).invert();
    write_answer(inverted, forward, backward)
}

// First the bijection in the columns forward and backward, then the other one. The answer takes the place of the first.
#[unsafe(no_mangle)]
pub extern "C" fn colourway_bijection_compose(
    forward: &mut [u16; 256],
    backward: &mut [u16; 256],
    other_forward: &[u16; 256],
    other_backward: &[u16; 256],
) -> u8
    ensures number { result ≡ said_number (compose_of (from_columns forward.old backward.old)
        (from_columns other_forward.now other_backward.now)).said }
    ensures bijection_after { from_columns forward.new backward.new
        ≡ (compose_of (from_columns forward.old backward.old)
        (from_columns other_forward.now other_backward.now)).bijection }
{
    let other = bijection_in(other_forward, other_backward);
    let composed = compose(bijection_in(forward, backward), other);
    write_answer(composed, forward, backward)
}
