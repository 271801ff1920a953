// A pattern as it lies when it is compared: as it is, or enlarged (enlarged.rt). What the search knows of its pattern
// it reads here.
ghost use Rattle.std.specs.Prelude.{◌≡◌, List, ℕ, ◌+◌, ◌≤◌, ◌<◌, length, get_or};
ghost use Rattle.prefixes.specs.State.{FirstPlaces};
ghost use Rattle.placed.specs.Blocks.{BlockAt, Repeats};
ghost use Rattle.placed.specs.declared.block.Block.{Block};

use crate::block::Block;

// The cells of a pattern, row after row, and how a comparison goes through them: from block to block, where a block is
// the positions of one row that show one cell of the pattern. A text is read as a pattern is, so that a pattern may be
// its own text.
pub trait Pattern: Copy {
    ghost cells: { Self → List ℕ };

    // The block behind this one begins at that position, and is found by a step.
    ghost Onward: { Self → Block → ℕ → Type 0 };

    // How many cells there are.
    fn len(self) -> usize
        ensures length { result ≡ length (cells self) }
        ensures bytes { (k : ℕ) → get_or (cells self) k 0 < 256 };

    // The symbol at position p.
    fn at(self, p: usize) -> u8
        requires { p < length (cells self) }
        ensures { result ≡ get_or (cells self) p 0 };

    // No block yet: the next one is found by its position.
    fn before(self) -> Block
        ensures { (p : ℕ) → Onward self result p };

    // The block of position p, from that position on.
    fn block_at(self, p: usize) -> Block
        requires { p < length (cells self) }
        ensures block { BlockAt (cells self) p result }
        ensures onward { Onward self result (p + result.cells) };

    // The block behind b, which is that of position p.
    fn next_block(self, b: Block, p: usize) -> Block
        requires { Onward self b p × (p < length (cells self)) }
        ensures block { BlockAt (cells self) p result }
        ensures onward { Onward self result (p + result.cells) };

    // How many cells from position p on have one symbol, of the next so many.
    fn repeats(self, p: usize, most: usize) -> usize
        requires { (1 ≤ most) × (p + most ≤ length (cells self)) }
        ensures { Repeats (cells self) p most result };

    // The first place of each symbol.
    fn first_places(self, first: &mut [usize; 256])
        ensures { FirstPlaces (λ k. get_or (cells self) k 0) (length (cells self)) first.new };
}

// As it is: a block is one cell, the next block the next cell.
impl<'a> Pattern for &'a [u8] {
    ghost cells = { λ s. s.now };

    ghost Onward = { λ _ _ _. Unit {0} };

    #[inline(always)]
    fn len(self) -> usize {
        <[u8]>::len(self)
    }

    #[inline(always)]
    fn at(self, p: usize) -> u8 {
        self[p]
    }

    #[inline(always)]
    fn before(self) -> Block {
        Block {
            symbol: 0,
            cells: 0,
            place: 0,
            stop: 0,
        }
    }

    #[inline(always)]
    fn block_at(self, p: usize) -> Block {
        Block {
            symbol: self[p],
            cells: 1,
            place: p,
            stop: 0,
        }
    }

    #[inline(always)]
    fn next_block(self, _b: Block, p: usize) -> Block {
        self.block_at(p)
    }

    #[inline(always)]
    fn repeats(self, p: usize, most: usize) -> usize {
        for n in 1..most {
            if self[p + n] != self[p] {
                return n;
            }
        }
        most
    }

    // From the end on: an earlier place overwrites a later one.
    fn first_places(self, first: &mut [usize; 256]) {
        for p in (0..self.len()).rev() {
            first[usize::from(self[p])] = p;
        }
    }
}
