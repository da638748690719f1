// A lent buffer: what it holds before a call, and what is printed of it after.
use std::io::Write;
use std::{array, io};

// What byte k of a lent buffer holds before a call. It is no process number, and not what the bytes beside it hold, so that it shows if they
// are moved. (`as` narrows a number below 200.)
fn filler(k: usize) -> u8 {
    (100 + k % 100) as u8
}

// The bytes of which a part is lent.
pub(crate) fn untouched() -> [u8; 65536] {
    array::from_fn(filler)
}

// The first bytes of a space, or all where it has fewer. A count is what a case or a call says, here and below, and no state.
pub(crate) fn part(space: &mut [u8], count: usize) -> &mut [u8] {
    let end = count.min(space.len());
    &mut space[..end]
}

// The buffer after a call: what the call says that it has written to the front, and how many of the bytes after that are as before.
pub(crate) fn put_lent(output: &mut impl Write, lent: &[u8], written: usize) -> io::Result<()> {
    for byte in lent.iter().take(written) {
        write!(output, " {byte}")?;
    }
    let kept = lent
        .iter()
        .enumerate()
        .skip(written)
        .filter(|&(k, &byte)| byte == filler(k))
        .count();
    let left = lent.len().saturating_sub(written);
    writeln!(output, "\nkept {kept} of {left}")
}
