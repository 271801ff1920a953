// The images of the pattern's symbols in a window: what the window has in a symbol's first place.
ghost use Rattle.std.specs.Prelude.{◌≡◌, ◌+◌, ◌<◌, length, get_or};
ghost use Rattle.view.specs.Places.{corner_of};
ghost use Rattle.inheriting.specs.Offsets.{image_from_behind, Offsets};

use crate::offsets::image_behind;
use matching::compared::Compared;

// A window that is compared, where its corner lies in the text, and how far the first place of each of the pattern's
// symbols lies behind a corner: so an image is one read.
#[derive(Clone, Copy)]
pub struct Imaged<'a, 'b, 'c> {
    pub compared: Compared<'a, 'b>,
    pub corner: usize,
    pub offsets: &'c [usize; 256],
    pub ghost corner_is: { corner ≡ corner_of compared.window.place },
    pub ghost leads: { let v = compared.window.place in
        Offsets compared.pattern.now v.columns v.width offsets.now },
}

impl<'a, 'b, 'c> Imaged<'a, 'b, 'c> {
    // The image of symbol a.
    #[inline]
    pub fn image(self, a: u8) -> u8
        requires { self.corner + get_or self.offsets.now a 0 < length self.compared.window.text.now }
        ensures { let m = self.entry in
            result ≡ image_from_behind m.compared.window.text.now m.corner m.offsets.now a }
    {
        image_behind(self.compared.window.text, self.corner, self.offsets, a)
    }
}
