// What an operation refuses. specs/Refusals.antt gives the number and value of each case, as documents 01 and 02 fix
// them.
ghost use Rattle.std.specs.Prelude.{◌≡◌};
ghost use Rattle.refusals.specs.Refusals.{number_of_reason, number_of, value_of, values_of};
ghost use Rattle.refusals.specs.Said.{check_with, check, outcome_said, number_in};
ghost use Rattle.refusals.specs.declared.refusals.Refusal.TheVariants.{Plain};

use std::fmt;

// Why an input, or a state, is refused where nothing is returned besides the number.
#[derive(Clone, Copy, Debug, PartialEq, Eq)]
pub enum Reason {
    // program: fewer than 4 size bytes
    SizesMissing,
    // a side is 0 or above 255
    SideRange,
    // cells given are not rows × columns in number
    CellCount,
    // pattern or strip taller or wider than the text
    TooLarge,
    // corner or strip column beyond R − r or C − c
    CornerOutside,
    // program: text or pattern of more than 16,384 cells
    TooManyCells,
    // links buffer shorter than R × c
    LinksBufferShort,
    // flags or counts buffer shorter than the number of windows
    WindowBufferShort,
    // the pattern symbol already has another image
    HasOtherImage,
    // the text symbol is already another's image
    HasOtherPreimage,
    // a bijection whose columns disagree or hold a number above 256
    ColumnsDisagree,
    // flags that differ from the truth for some window
    FlagsFalse,
    // the scale is 0, or the pattern enlarged by it taller or wider than the text
    ScaleUnfit,
}

// By what an input, or a state, is refused.
#[derive(Clone, Copy, Debug, PartialEq, Eq)]
pub enum Refusal {
    // with nothing but its number
    Plain(Reason),
    // listing of wrong form; the place of the record
    ListingForm(usize),
    // listing with a false statement; the place of the record
    ListingFalse(usize),
    // listing buffer shorter than the listing; the length needed
    ListingBufferShort(usize),
    // cursor at or past the end of the listing; the cursor's place
    CursorSpent(usize),
}

impl Reason {
    // Refused for this reason, unless the test passes.
    pub fn unless(self, passes: bool) -> Result<(), Refusal>
        ensures { outcome_said result ≡ check passes (number_of_reason self) }
    {
        Refusal::from(self).unless(passes)
    }
}

impl Refusal {
    // Refused by this, unless the test passes. An order of refusals is a chain of these, each with a `?`.
    pub fn unless(self, passes: bool) -> Result<(), Refusal>
        ensures { outcome_said result ≡ check_with passes (number_of self) (values_of self) }
    {
        if passes { Ok(()) } else { Err(self) }
    }

    // What a refusal returns besides its number: the length needed of 11 and the place of 6, 7 and 15.
    pub fn value(self) -> Option<usize>
        ensures { result ≡ value_of self }
    {
        match self {
            Refusal::Plain(_) => None,
            Refusal::ListingForm(at) => Some(at),
            Refusal::ListingFalse(at) => Some(at),
            Refusal::ListingBufferShort(needed) => Some(needed),
            Refusal::CursorSpent(at) => Some(at),
        }
    }
}

impl From<Reason> for Refusal {
    ghost from_gives = { λ why r. r ≡ Plain why };

    fn from(why: Reason) -> Refusal {
        Refusal::Plain(why)
    }
}

// The number of a reason, in the table of documents 01 and 02.
impl From<Reason> for u8 {
    ghost from_gives = { λ why n. n ≡ number_of_reason why };

    fn from(why: Reason) -> u8 {
        match why {
            Reason::SizesMissing => 1,
            Reason::SideRange => 2,
            Reason::CellCount => 3,
            Reason::TooLarge => 4,
            Reason::CornerOutside => 5,
            Reason::TooManyCells => 8,
            Reason::LinksBufferShort => 9,
            Reason::WindowBufferShort => 10,
            Reason::HasOtherImage => 12,
            Reason::HasOtherPreimage => 13,
            Reason::ColumnsDisagree => 14,
            Reason::FlagsFalse => 16,
            Reason::ScaleUnfit => 17,
        }
    }
}

// The number of a refusal, in the same table.
impl From<Refusal> for u8 {
    ghost from_gives = { λ why n. n ≡ number_of why };

    fn from(why: Refusal) -> u8 {
        match why {
            Refusal::Plain(reason) => u8::from(reason),
            Refusal::ListingForm(_) => 6,
            Refusal::ListingFalse(_) => 7,
            Refusal::ListingBufferShort(_) => 11,
            Refusal::CursorSpent(_) => 15,
        }
    }
}

// As the program prints it, without the end of the line.
impl fmt::Display for Refusal {
    fn fmt<W: fmt::Write>(&self, f: &mut fmt::Formatter<W>) -> fmt::Result {
        write!(f, "refused {}", u8::from(*self))
    }
}

// The number of an answer: 0 where it is accepted.
pub fn answer_number<T>(answer: &Result<T, Refusal>) -> u8
    ensures { result ≡ number_in answer.now }
{
    match answer {
        Ok(_) => 0,
        Err(why) => u8::from(*why),
    }
}
