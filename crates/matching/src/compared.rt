// A pattern and the window that it is compared with.
ghost use Rattle.std.specs.Prelude.{◌≡◌, ℕ, ◌*◌, ◌<◌, length, get_or, take, drop};
ghost use Rattle.view.specs.Places.{cell_count};

use view::WindowView;

// The window and the pattern, which has as many cells: position p of the one is compared with position p of the other.
// That the pattern is of bytes is said here because a slice in a struct does not say it.
#[derive(Clone, Copy)]
pub struct Compared<'a, 'b> {
    pub window: WindowView<'a>,
    pub pattern: &'b [u8],
    pub ghost fitting: { length pattern.now ≡ cell_count window.place },
    pub ghost bytes: { (i : ℕ) → get_or pattern.now i 0 < 256 },
}

impl<'a, 'b> Compared<'a, 'b> {
    // Row i of the pattern, which is as wide as the window.
    #[inline]
    pub fn pattern_row(self, i: usize) -> &'b [u8]
        requires { i < self.window.place.height }
        ensures { let width = self.entry.window.place.width in
            result.now ≡ take width (drop (i * width) self.entry.pattern.now) }
    {
        let width = self.window.place.width;
        let from = i * width;
        &self.pattern[from..from + width]
    }
}
