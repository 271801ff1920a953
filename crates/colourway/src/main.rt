// Document 01's program. Its work is `answer`, from the input's bytes to the output's; here they are read and written.
#![tactic(auto)]

ghost use Rattle.std.specs.Prelude.{◌≡◌, List, ℕ, length, take};
ghost use Rattle.io.specs.Counts.{IsPrefixLen};
ghost use Rattle.program.specs.Program.{output_of};

use program::program::answer;
use std::io;
use std::io::Read;

// A byte more than the longest input that can be right, which has 4 sizes and twice 16,384 cells. Of a longer input no
// more need be read: what stands behind does not change what is printed.
fn input_buffer() -> [u8; 32773]
    ensures long { 32773 ≡ length result }
    ensures enough { (input : List ℕ) → output_of (take (length result) input) ≡ output_of input }
{
    [0; 32773]
}

// Reads until the buffer is full, the input ends or a read fails, and answers how many bytes stand at the buffer's
// start. By hand, since `read_exact` does not say how many came before the input's end, and `read_to_end` needs a heap.
fn read_full<R: Read>(input: &mut R, buffer: &mut [u8]) -> usize
    ensures { IsPrefixLen result buffer.new }
{
    let mut done = 0;
    while done < buffer.len() {
        let n = input.read(&mut buffer[done..]).unwrap_or(0);
        if n == 0 {
            break;
        }
        done += n;
    }
    done
}

fn main(rt: HostRuntime) -> io::Result<()> {
    let mut input = input_buffer();
    let mut reader = rt.stdin();
    let given = read_full(&mut reader, &mut input);
    let output = answer(&input[..given]);
    rt.write_all(&output.bytes[..output.length])
}
