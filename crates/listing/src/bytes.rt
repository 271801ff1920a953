// Bytes written into a buffer.
ghost use Rattle.std.specs.Prelude.{◌≡◌, ◌+◌, ◌≤◌, length};
ghost use Rattle.theory.specs.Written.{written};

// Writes bytes at a place; the place after them. A place, and not the rest of the buffer as a slice: what stands where
// in the whole buffer, which C lends, is what contracts say.
pub fn put(buffer: &mut [u8], at: usize, bytes: &[u8]) -> usize
    requires { at + length bytes.now ≤ length buffer.old }
    ensures end { result ≡ at + length bytes.now }
    ensures buffer_after { buffer.new ≡ written buffer.old at bytes.now }
{
    let end = at + bytes.len();
    buffer[at..end].copy_from_slice(bytes);
    end
}
