// Gives pseudo-random schedules to the two machines, fresh and side by side, for every process count, and checks demand 3 after every byte.
// It prints a line of totals for each n and one for all. A number of disagreements other than 0 is a fault.
#![tactic(auto)]

mod count;
mod demand;
mod pair;
mod schedule;
mod tally;

ghost use Rattle.std.specs.Prelude.{◌≡◌, ◌+◌, ◌*◌, ◌^◌, ◌<◌};

use count::ProcessCount;
use fields::MOST_PROCESSES;
use pair::Pair;
use schedule::Schedule;
use std::io;
use tally::Tally;

// How many passages without waits a schedule has bytes for.
const PASSAGES: u16 = 100;

// One schedule, in bursts of at most `longest` bytes. (What it asks of `longest` is a fact of the `Schedule` that it makes.)
fn over_schedule(count: ProcessCount, longest: u16) -> Tally
    requires { 0 < longest }
    ensures { result.bytes ≡ PASSAGES * (3 * count.n + 5) }
{
    let mut pair = Pair::fresh(count);
    let mut schedule = Schedule::new(count, longest);
    let mut tally = Tally::EMPTY;
    for _ in 0..PASSAGES * count.passage() {
        let event = pair.give(schedule.next_byte());
        tally.count(event);
        // with many processes most bytes would otherwise be waits, and few passages would end
        if !event.outcome.is_move() {
            schedule.end_burst();
        }
    }
    tally
}

// The schedules of one count: every byte drawn anew, bursts of up to a passage, and bursts of up to four.
fn over_count(count: ProcessCount) -> Tally
    ensures { result.bytes < 2 ^ 16 }
{
    let mut tally = over_schedule(count, 1);
    tally += over_schedule(count, count.passage());
    tally += over_schedule(count, 4 * count.passage());
    tally
}

// (A `for` over the counts, since each is printed, which may fail.)
fn main(rt: HostRuntime) -> io::Result<()> {
    let mut all = Tally::EMPTY;
    for n in 1..=MOST_PROCESSES {
        let tally = over_count(ProcessCount { n });
        println!(rt; "n {n}: {tally}")?;
        all += tally;
    }
    println!(rt; "all: {all}")
}
