// What the check keeps from window to window. The tables lie in one place and are lent whole; nothing in them is copied.
ghost use Rattle.std.specs.Prelude.{◌≡◌, replicate, None};

use rows::run::FirstEnd;
use shapes::tables::table;

#[derive(Drop)]
pub struct Tables {
    // for each text symbol the mark of the last window in which a pair gave it
    pub given: [u32; 256],
    // how far the first place of each of the pattern's symbols lies behind a window's corner, once that is asked for
    pub offsets: Option<[usize; 256]>,
    // the pattern's own ends; not made yet where the first is 0
    pub own: [FirstEnd; 256],
    // for each column one more than the row of the last window there that has one symbol for each of the pattern's, or
    // 0 where none has. No Option: 256 of them take 4 KiB of stack and not 2, and the check would touch more than the
    // header says
    pub tops: [usize; 256],
}

impl Tables {
    // As they are before the first window.
    pub fn new() -> Tables
        ensures given { result.given ≡ replicate 256 0 }
        ensures offsets { result.offsets ≡ None }
        ensures own { result.own ≡ replicate 256 (record { end = 0; earlier = 0 }) }
        ensures tops { result.tops ≡ replicate 256 0 }
    {
        Tables {
            given: table(0),
            offsets: None,
            own: table(FirstEnd { end: 0, earlier: 0 }),
            tops: table(0),
        }
    }
}
