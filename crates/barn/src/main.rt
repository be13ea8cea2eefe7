// The program (01, "The program"): datagrams from standard input, answers to standard output.
#![tactic(auto)]

ghost use Rattle.std.specs.Prelude.{◌<◌, ℕ, IfOk, OnErr, length, take};
ghost use Rattle.std.specs.Io.{ReadsAtMost};
ghost use Rattle.std.specs.Io.KnownBytes.{Consumes, IsAtEnd};

use std::io;
use std::io::{Read, Write};

// Reads until the octets are full or the input ends, in however many pieces the input comes; how many
// octets were read. After an error those read before it stand at the start.
fn read_full<R: Read>(reader: &mut R, octets: &mut [u8]) -> io::Result<usize>
    ensures bound { ReadsAtMost result octets.new }
    ensures ok { IfOk result
        (λ n. Consumes (R.remaining reader.old) (R.remaining reader.new) (take n octets.new)) }
    ensures all { IfOk result (λ n. n < length octets.old → IsAtEnd (R.remaining reader.new)) }
    ensures err { OnErr result
        ((n : ℕ) × Consumes (R.remaining reader.old) (R.remaining reader.new) (take n octets.new)) }
{
    // Counted by hand: input comes in pieces. `read_exact` refuses a short one, and `io::copy` promises nothing of what
    // came before an error, which clause `err` does.
    let mut done = 0;
    while done < octets.len() {
        let n = reader.read(&mut octets[done..])?;
        if n == 0 {
            break;
        }
        done += n;
    }
    Ok(done)
}

fn main(rt: HostRuntime) -> io::Result<()> {
    let mut input = [0u8; 65535];
    let size = read_full(&mut rt.stdin(), &mut input)?;
    let mut out = [0u8; 65535];
    let count = datagram::run(&input[..size], &mut out);
    rt.stdout().write_all(&out[..count])
}
