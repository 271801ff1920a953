// How many windows are found and how many refused, and how long the listing is.
ghost use Rattle.std.specs.Prelude.{◌≡◌, ◌==◌, ◌≤◌, length, count_by};
ghost use Rattle.totals.specs.Totalled.{totals_flagged};

use listing::totals::Totals;

// How many flags are 1.
fn count_found(flags: &[u8]) -> usize
    ensures { result ≡ count_by (λ flag. flag == 1) flags.now }
{
    flags.iter().filter(|flag| **flag == 1).count()
}

// The totals of windows with these flags, by the number of the pattern's symbols.
pub fn totals_of(symbols: u16, flags: &[u8]) -> Totals<u16>
    requires { length flags.now ≤ 65025 }
    ensures { result ≡ totals_flagged flags.now symbols }
{
    let found = count_found(flags);
    let refused = flags.len() - found;
    // At most 65,025, by `as`: `try_from` would have a way out that no value takes.
    Totals {
        found: found as u16,
        refused: refused as u16,
        length: found * (3 + 3 * usize::from(symbols)) + 7 * refused + 5,
    }
}
