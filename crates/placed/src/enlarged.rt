// A pattern enlarged: each of its cells stands scale by scale times. An enlargement is stored nowhere: a position of it
// is turned into the place of the pattern's cell that it shows.
ghost use Rattle.std.specs.Prelude.{◌≡◌, ℕ, ◌*◌, ◌/◌, ◌≤◌, ◌<◌, length, get_or};
ghost use Rattle.placed.specs.Placing.{index_at, laid_place_of, enlarged, Sound};
ghost use Rattle.placed.specs.Blocks.{Follows};

use crate::block::Block;
use crate::pattern::Pattern;

// The pattern, the scale, the pattern's own sides, and how many cells the enlargement has; and what a position is
// multiplied by where it is divided by the scale, by the enlargement's width, and by scale rows of the enlargement: a
// product costs less than a division.
#[derive(Clone, Copy)]
pub struct Enlarged<'a> {
    pub own: &'a [u8],
    pub scale: usize,
    pub height: usize,
    pub width: usize,
    pub cells: usize,
    pub by_scale: usize,
    pub by_width: usize,
    pub by_block: usize,
    pub ghost sound: { Sound scale height width cells by_scale by_width by_block },
    pub ghost sides: { length own.now ≡ height * width },
    pub ghost bytes: { (i : ℕ) → get_or own.now i 0 < 256 },
}

// The quotient of p by a number whose inverse, times 2 to the 32, is by.
#[inline]
fn quotient(p: usize, by: usize) -> usize
    requires { (p ≤ 65025) × (by ≤ 4294967297) }
    ensures { result ≡ p * by / 4294967296 }
{
    p * by / 4294967296
}

impl<'a> Enlarged<'a> {
    // The place of the pattern's cell that position p shows.
    #[inline]
    fn shown_place(self, p: usize) -> usize
        requires { p < self.cells }
        ensures { result ≡ index_at self.entry.scale self.entry.width p }
    {
        let row = quotient(p, self.by_width);
        let shown = quotient(p, self.by_block);
        quotient(p, self.by_scale) - self.width * (row - shown)
    }

    // The first position that shows the pattern's cell at place p; 0 where it has no such place.
    fn laid_place(self, p: usize) -> usize
        ensures { result ≡ laid_place_of self.entry.scale self.entry.height self.entry.width p }
    {
        if self.height * self.width <= p {
            return 0;
        }
        (p / self.width * (self.scale * self.width) + p % self.width) * self.scale
    }
}

impl<'a> Pattern for Enlarged<'a> {
    ghost cells = { λ e. enlarged e.own.now e.scale e.width e.cells };

    ghost Onward = { λ e b p.
        Follows e.own.now (enlarged e.own.now e.scale e.width e.cells) e.scale b.place p b.stop };

    #[inline]
    fn len(self) -> usize {
        self.cells
    }

    #[inline]
    fn at(self, p: usize) -> u8 {
        let place = self.shown_place(p);
        self.own[place]
    }

    #[inline]
    fn before(self) -> Block {
        Block {
            symbol: 0,
            cells: 0,
            place: 0,
            stop: 0,
        }
    }

    // All positions of a row with one quotient by the scale show one cell.
    #[inline]
    fn block_at(self, p: usize) -> Block {
        let place = self.shown_place(p);
        Block {
            symbol: self.own[place],
            cells: (quotient(p, self.by_scale) + 1) * self.scale - p,
            place,
            stop: (quotient(p, self.by_width) + 1) * (self.scale * self.width),
        }
    }

    // In its row by a step, and else by its position.
    #[inline]
    fn next_block(self, b: Block, p: usize) -> Block {
        if p < b.stop {
            let place = b.place + 1;
            return Block {
                symbol: self.own[place],
                cells: self.scale,
                place,
                stop: b.stop,
            };
        }
        self.block_at(p)
    }

    // Block after block, each of its own length: no `for`.
    fn repeats(self, p: usize, most: usize) -> usize {
        let mut b = self.block_at(p);
        let symbol = b.symbol;
        let mut n = b.cells;
        while n < most {
            b = self.next_block(b, p + n);
            if b.symbol != symbol {
                return n;
            }
            n += b.cells;
        }
        most
    }

    // First places in the pattern become first places in the enlargement: the corner of the cells that show a place
    // comes before all that show it or a later one. So an enlargement is not walked through.
    fn first_places(self, first: &mut [usize; 256]) {
        self.own.first_places(first);
        for p in first.iter_mut() {
            *p = self.laid_place(*p);
        }
    }
}
