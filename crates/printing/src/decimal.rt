// A byte in decimal. The digits are made here: the kit's writers of numbers fill a buffer of their own from its end, and
// their bytes would be copied from there.
ghost use Rattle.std.specs.Prelude.{◌≡◌, [], ◌∷◌, ◌++◌, ◌+◌, ◌≤◌, length};
ghost use Rattle.theory.specs.Written.{written};
ghost use Rattle.printing.specs.Decimal.{decimal};

use listing::bytes::put;

// Writes a number's digits at a place, where there is room for them; the place after them.
fn write_decimal(output: &mut [u8], at: usize, n: u8) -> usize
    requires { at + length (decimal n) ≤ length output.old }
    ensures end { result ≡ at + length (decimal n) }
    ensures output_after { output.new ≡ written output.old at (decimal n) }
{
    if n < 10 {
        return put(output, at, &[b'0' + n]);
    }
    if n < 100 {
        return put(output, at, &[b'0' + n / 10, b'0' + n % 10]);
    }
    put(
        output,
        at,
        &[b'0' + n / 100, b'0' + n / 10 % 10, b'0' + n % 10],
    )
}

// The digits, and a byte behind them: a space or a line feed.
pub fn write_item(output: &mut [u8], at: usize, n: u8, mark: u8) -> usize
    requires { at + length (decimal n ++ (mark ∷ [])) ≤ length output.old }
    ensures end { result ≡ at + length (decimal n ++ (mark ∷ [])) }
    ensures output_after { output.new ≡ written output.old at (decimal n ++ (mark ∷ [])) }
{
    let end = write_decimal(output, at, n);
    put(output, end, &[mark])
}
