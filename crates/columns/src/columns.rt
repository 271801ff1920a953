// The columns of a match, from the first place of each symbol.
ghost use Rattle.std.specs.Prelude.{◌≡◌, ◌+◌, ◌<◌};
ghost use Rattle.theory.specs.Match.{column};
ghost use Rattle.mapping.specs.Bijections.{empty_bijection};
ghost use Rattle.matching.specs.Compared.{pattern_seen, window_seen, cells_seen};
ghost use Rattle.columns.specs.Columns.{MatchAt, PairsTo};

use mapping::bijections::Bijection;
use matching::compared::Compared;

// The symbol a of the pattern, if it is one, is paired with the window's symbol at a's first place. The bijection comes
// with the pairs of the symbols below a.
fn pair_symbol(c: Compared, first: &[usize; 256], pairs: &mut Bijection, a: usize)
    requires { MatchAt c first.now × (a < 256)
        × PairsTo (pattern_seen c) (window_seen c) (cells_seen c) a pairs.old.forward pairs.old.backward }
    ensures { PairsTo (pattern_seen c.entry) (window_seen c.entry) (cells_seen c.entry) (a + 1)
        pairs.new.forward pairs.new.backward }
{
    let p = first[a];
    if c.pattern.len() <= p {
        return;
    }
    let b = usize::from(c.pattern[p]);
    if b != a {
        return;
    }
    let x = c.window.symbol(p);
    // A symbol, by `as`: `try_from` would have a way out that no value takes.
    pairs.forward[a] = u16::from(x);
    pairs.backward[usize::from(x)] = a as u16;
}

// The columns of a match, from the first place of each symbol; the bijection comes empty.
pub fn match_columns(c: Compared, first: &[usize; 256], pairs: &mut Bijection)
    requires { MatchAt c first.now × (pairs.old ≡ empty_bijection) }
    ensures forward_after { pairs.new.forward
        ≡ column (pattern_seen c.entry) (window_seen c.entry) (cells_seen c.entry) }
    ensures backward_after { pairs.new.backward
        ≡ column (window_seen c.entry) (pattern_seen c.entry) (cells_seen c.entry) }
{
    for a in 0..256 {
        pair_symbol(c, first, pairs, a);
    }
}
