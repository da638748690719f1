// The entry lister: standard input is an algorithm byte, an n byte and a schedule; standard output is the list of entries.
#![tactic(auto)]

ghost use Rattle.std.specs.Prelude.{◌≤◌, length, IfOk};

use std::io;
use std::io::Read;

// Reads until the buffer is full or the input ends, and answers how many bytes it put to the front of the buffer.
// The loop is its own: of std, `read_exact` fails where the input ends first, `read_to_end` needs a heap, and `copy` gives no bound on its count.
fn read_full(input: &mut impl Read, buffer: &mut [u8]) -> io::Result<usize>
    ensures { IfOk result (λ got. got ≤ length buffer.new) }
{
    let mut got = 0;
    while got < buffer.len() {
        let count = input.read(&mut buffer[got..])?;
        if count == 0 {
            break;
        }
        got += count;
    }
    Ok(got)
}

// The buffer holds 65,536 bytes. Of a longer input its front is enough: with more than 60,000 bytes of schedule the lister refuses it all.
fn main(rt: HostRuntime) -> io::Result<()> {
    let mut input = [0; 65536];
    let got = read_full(&mut rt.reader(), &mut input)?;
    let mut text = [0; listing::LISTING_ROOM];
    let length = listing::list(&input[..got], &mut text);
    rt.write_all(&text[..length])
}
