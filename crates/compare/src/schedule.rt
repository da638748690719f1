// Pseudo-random schedules, the same at every run. A schedule is a row of bursts, and a burst is one byte several times.
ghost use Rattle.std.specs.Prelude.{◌<◌};

use crate::count::ProcessCount;

// Where a schedule for `count` processes stands: the byte given last, how many times more it is to be given, and what the rest is drawn
// from. No burst is longer than `longest`.
#[derive(Drop)]
pub(crate) struct Schedule {
    count: ProcessCount,
    longest: u16,
    byte: u8,
    left: u32,
    seed: u32,
    ghost positive: { 0 < longest },
}

// The factor and the modulus, the prime 2^31 - 1, of a Lehmer generator.
const FACTOR: u64 = 48271;

const PRIME: u64 = 2147483647;

// One burst in this many is of a byte that is no process number.
const BURSTS_TO_ONE_REFUSED: u32 = 32;

// The number that the generator gives after `seed`.
fn drawn(seed: u32) -> u32 {
    (u64::from(seed) * FACTOR % PRIME) as u32
}

// One of 0 to n - 1. (`as` narrows a remainder, here and above.)
fn one_of(count: ProcessCount, number: u32) -> u8
    ensures { result < count.n }
{
    (number % u32::from(count.n)) as u8
}

// A process number, or a byte that is none: 0 or n + 1, which both machines refuse.
fn byte_of(count: ProcessCount, number: u32) -> u8 {
    let rest = number / BURSTS_TO_ONE_REFUSED;
    if number % BURSTS_TO_ONE_REFUSED != 0 {
        one_of(count, rest) + 1
    } else if rest % 2 == 0 {
        0
    } else {
        count.n + 1
    }
}

impl Schedule {
    // The schedule before its first byte. Each count and `longest` has a seed of its own.
    pub(crate) fn new(count: ProcessCount, longest: u16) -> Schedule
        requires { 0 < longest }
    {
        Schedule {
            count,
            longest,
            byte: 0,
            left: 0,
            seed: 1000 * u32::from(count.n) + u32::from(longest),
        }
    }

    // The next byte: of the same burst, or of a new one.
    pub(crate) fn next_byte(&mut self) -> u8 {
        if 0 < self.left {
            self.left -= 1;
        } else {
            let length = drawn(self.seed);
            self.seed = drawn(length);
            self.byte = byte_of(self.count, self.seed);
            self.left = length % u32::from(self.longest);
        }
        self.byte
    }

    pub(crate) fn end_burst(&mut self) {
        self.left = 0;
    }
}
