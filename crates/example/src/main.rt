// How the library is called: two controllers on the bounded machine. A schedule is run, its entries are printed, and the table is kept as
// bytes until the next run.
#![tactic(auto)]

ghost use Rattle.std.specs.Prelude.{◌≡◌, IfOk};
ghost use Rattle.machine.specs.Run.{run_of, buffer_of};

use fields::stop_number;
use machine::Ran;
use std::io;
use table::Table;

// Runs a schedule, prints the process of each entry, and counts those of process 2. It answers what `run` answers, and promises so; where
// the printing fails, the buffer holds the entries all the same. The law named below says that a run answers no more entries than the buffer
// has bytes, so that they are a part of it.
#[tactic(auto, using(machine::proofs::Runs::entries_within, std::proofs::lemmas::Grind::common_steps))]
fn run_and_put(rt: &impl Print, t: Table, schedule: &[u8], entries: &mut [u8]) -> io::Result<Ran>
    ensures answer { IfOk result (λ r. r ≡ run_of t schedule.now entries.old) }
    ensures buffer { entries.new ≡ buffer_of t schedule.now entries.old }
{
    let ran = machine::run(t, schedule, entries);
    let entered = &entries[..ran.entries];
    for process in entered {
        println!(rt; "entry {process}")?;
    }
    let count = entered.iter().filter(|&&process| process == 2).count();
    println!(rt; "of process 2 {count}")?;
    Ok(ran)
}

fn main(rt: HostRuntime) -> io::Result<()> {
    // algorithm 1, the bounded machine, and two processes
    let start = table::fresh(1, 2).table;
    // the entry buffer is as long as the schedule
    let schedule = [1, 2, 1, 2, 1, 2, 1, 2, 1, 2, 1, 2, 2, 2, 1, 1, 1];
    let mut entries = [0; 17];
    let first = run_and_put(&rt, start, &schedule, &mut entries)?;
    println!(rt; "waited {}", first.waited)?;
    println!(rt; "stop {}", stop_number(first.stop))?;
    // 7 + 79n bytes hold the table; what is read back is the same table
    let mut form = [0; 165];
    let wrote = stored::write(first.table, &mut form);
    println!(rt; "stored {}", wrote.length)?;
    let restored = stored::read(&form).table;
    // the next run goes on from there: process 1 leaves, and process 2 enters
    let second = run_and_put(&rt, restored, &[1, 1, 2, 2], &mut entries)?;
    println!(rt; "waiting {}", second.waiting)
}
