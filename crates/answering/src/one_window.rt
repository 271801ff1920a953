// The one-window question: a pattern against the window of its size at a corner of a text.
ghost use Rattle.std.specs.Prelude.{◌≡◌, ◌<◌, length};
ghost use Rattle.theory.specs.Bytes.{Bytes};
ghost use Rattle.theory.specs.Match.{answer_of};
ghost use Rattle.refusals.specs.Said.{outcome_said};
ghost use Rattle.shapes.specs.Questions.{question_in};
ghost use Rattle.matching.specs.Compare.{place_said, told, one_window_of, verdict_of};
ghost use Rattle.matching.specs.Compared.{pattern_seen, window_seen, cells_seen};

use cells::windows::WindowPlace;
use columns::columns::match_columns;
use mapping::bijections::Bijection;
use matching::compare::{Verdict, first_end, mismatch_between};
use matching::compared::Compared;
use placed::pattern::Pattern;
use refusals::refusals::{Reason, Refusal};
use shapes::question::Question;
use shapes::tables::table;
use view::WindowView;

// The pattern compared with the window of its size.
fn compare(c: Compared) -> Verdict
    ensures { result ≡ verdict_of (pattern_seen c.entry) (window_seen c.entry) (cells_seen c.entry)
        (answer_of (pattern_seen c.entry) (window_seen c.entry) (cells_seen c.entry)) }
{
    let v = c.window.place;
    let n = v.height * v.width;
    let mut first = table(0);
    let mut last = table(0);
    c.pattern.first_places(&mut first);
    let end = first_end(c, &first, &mut last);
    if end.place < n {
        return mismatch_between(c.pattern, end.earlier, end.place);
    }
    let mut bijection = Bijection::empty();
    match_columns(c, &first, &mut bijection);
    Verdict::Match(bijection)
}

// By what the question is refused.
#[tactic(auto, unfolding(matching::specs::Compare::place_said))]
fn window_outcome(q: Question, row: usize, column: usize) -> Result<(), Refusal>
    ensures { outcome_said result ≡ place_said (question_in q.entry) row column }
{
    q.question_outcome()?;
    Reason::CornerOutside.unless(q.shape.corner_inside(row, column))
}

// Whether the pattern matches the window of its size at that corner of a text. That text and pattern are bytes, which
// their types say, is ensured too, so that what is said of the bijection needs nothing but what stands here.
#[tactic(auto, unfolding(matching::specs::Compare::one_window_of, matching::specs::Compare::window_said))]
pub fn one_window(q: Question, row: usize, column: usize) -> Result<Verdict, Refusal>
    ensures answer { told result ≡ one_window_of (question_in q.entry) row column }
    ensures bytes { Bytes q.entry.text.now × Bytes q.entry.pattern.now }
{
    window_outcome(q, row, column)?;
    let place = WindowPlace {
        columns: q.shape.columns,
        row,
        column,
        height: q.shape.height,
        width: q.shape.width,
    };
    let window = WindowView {
        text: q.text,
        place,
    };
    let pattern = q.pattern;
    Ok(compare(Compared { window, pattern }))
}
