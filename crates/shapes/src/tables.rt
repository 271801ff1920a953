// Tables before anything stands in them.
ghost use Rattle.std.specs.Prelude.{◌≡◌, replicate};

// A table of N entries, each of them x. A function of its own keeps a literal of many entries out of every other
// function's proof.
pub fn table<T: Copy, const N: usize>(x: T) -> [T; N]
    ensures { result ≡ replicate N x }
{
    [x; N]
}
