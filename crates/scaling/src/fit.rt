// Which scales fit: document 02's 17. A scale may be any number, so nothing is multiplied by it before it is known to
// be small: k × height is at most the rows exactly if k is at most rows / height.
ghost use Rattle.std.specs.Prelude.{◌≡◌, ◌*◌, leb};
ghost use Rattle.refusals.specs.Said.{outcome_said};
ghost use Rattle.shapes.specs.Shapes.{Sides};
ghost use Rattle.shapes.specs.Questions.{four_sides};
ghost use Rattle.scaled.specs.Scaled.{FitsAt, fits_test, scale_said, largest_scale_of};

use refusals::refusals::{Reason, Refusal};
use shapes::shapes::Shape;

// A side enlarged k times is no longer than the whole. A side of 0 stays 0, and there is nothing to divide by.
fn side_fits(whole: usize, part: usize, k: usize) -> bool
    ensures { result ≡ leb (k * part) whole }
{
    part == 0 || k <= whole / part
}

// The scale is not 0, and the enlarged pattern is neither taller nor wider than the text.
#[tactic(auto, unfolding(scaled::specs::Scaled::fits_test))]
pub fn fits_at(s: Shape, k: usize) -> bool
    ensures { result ≡ fits_test k s }
{
    1 <= k && side_fits(s.rows, s.height, k) && side_fits(s.columns, s.width, k)
}

// 17: it does not fit.
#[tactic(auto, unfolding(scaled::specs::Scaled::scale_said))]
pub fn scale_outcome(s: Shape, k: usize) -> Result<(), Refusal>
    ensures { outcome_said result ≡ scale_said k s }
{
    Reason::ScaleUnfit.unless(fits_at(s, k))
}

// The largest scale that fits, 0 where none does: no Option, since document 02 counts from 1 up to it.
pub fn largest_scale(s: Shape) -> usize
    requires { Sides s.rows s.columns s.height s.width }
    ensures { result ≡ largest_scale_of s }
{
    (s.rows / s.height).min(s.columns / s.width)
}

// The sides of the text, and those of the pattern enlarged: no longer than the text's, so the products are small.
pub fn enlarged_shape(s: Shape, k: usize) -> Shape
    requires { FitsAt k s }
    ensures { result ≡ four_sides s.rows s.columns (k * s.height) (k * s.width) }
{
    Shape {
        rows: s.rows,
        columns: s.columns,
        height: k * s.height,
        width: k * s.width,
    }
}
