// What every operation on a text is asked about, and by what it is refused for that alone: conditions 2, 3 and 4 in
// this order.
// What names the struct is imported inside the impl: its ghost field imports all that stands here.
ghost use Rattle.theory.specs.Bytes.{Bytes};

use crate::shapes::{Shape, grid_outcome};
use refusals::refusals::Refusal;

// A text, and the pattern that is looked for in it, with their sides. That both are bytes is a fact of each value: the
// type of a slice says so where it is a parameter, and not where it is a field.
#[derive(Clone, Copy)]
pub struct Question<'a> {
    pub text: &'a [u8],
    pub pattern: &'a [u8],
    pub shape: Shape,
    pub ghost bytes: { Bytes text.now × Bytes pattern.now },
}

impl<'a> Question<'a> {
    ghost use Rattle.std.specs.Prelude.{◌≡◌};
    ghost use Rattle.refusals.specs.Said.{outcome_said};
    ghost use Rattle.shapes.specs.Questions.{ask, question_in, cells_said, shape_said};

    // By its parts, in the papers' order. Nothing is asked of them.
    pub fn new(
        text: &'a [u8],
        rows: usize,
        columns: usize,
        pattern: &'a [u8],
        height: usize,
        width: usize,
    ) -> Question<'a>
        ensures { question_in result ≡ ask text.now rows columns pattern.now height width }
    {
        let shape = Shape {
            rows,
            columns,
            height,
            width,
        };
        Question {
            text,
            pattern,
            shape,
        }
    }

    // 3 of the text, then of the pattern.
    #[tactic(auto, unfolding(crate::specs::Questions::cells_said))]
    pub fn cells_outcome(self) -> Result<(), Refusal>
        ensures { outcome_said result ≡ cells_said (question_in self.entry) }
    {
        grid_outcome(self.text, self.shape.rows, self.shape.columns)?;
        grid_outcome(self.pattern, self.shape.height, self.shape.width)
    }

    // 2, 3 and 4 in this order.
    #[tactic(auto, unfolding(crate::specs::Questions::shape_said))]
    pub fn question_outcome(self) -> Result<(), Refusal>
        ensures { outcome_said result ≡ shape_said (question_in self.entry) }
    {
        self.shape.in_order(self.cells_outcome())
    }
}
