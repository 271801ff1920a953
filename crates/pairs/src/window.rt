// A window that a found record names.
ghost use Rattle.std.specs.Prelude.{◌≡◌, true};
ghost use Rattle.matching.specs.Compared.{pattern_seen, window_seen, cells_seen};
ghost use Rattle.inheriting.specs.Inheritance.{Follows};

use inheriting::images::Imaged;

// The window with the images of the pattern's symbols, and whether it is known to follow the pattern.
#[derive(Clone, Copy)]
pub struct FoundWindow<'a, 'b, 'c> {
    pub images: Imaged<'a, 'b, 'c>,
    pub carried: bool,
    pub ghost follows: { carried ≡ true
        → Follows (pattern_seen images.compared) (window_seen images.compared) (cells_seen images.compared) },
}
