// A run: the steps of a schedule one after another, and what is counted of them.
ghost use Rattle.std.specs.Prelude.{◌≡◌, true, cond, ◌+◌, ◌<◌, ◌≤◌, eqb, length, set};
ghost use Rattle.laws.specs.Lent.{in_front};
ghost use Rattle.fields.specs.Numbers.{line_of_entry};
ghost use Rattle.table.specs.WellFormed.{well_formed};
ghost use Rattle.machine.specs.Run.{course_of, entered_in, waiting_of, answer_of, refused_run, run_of, buffer_of};
ghost use Rattle.machine.specs.Ended.{ended_run};

use crate::Ran;
use crate::lines::Process;
use crate::rows::{cleared, next_of, place_of, seen_in, with_core, with_read};
use fields::{LINE_OF_ENTRY, Refusal, SCHEDULE_LIMIT, Value};
use table::Table;

// The mark of a step that changed the table. (A constant, so that the edit `wait_counted_as_moved` can make it wrong.)
const MOVED: u8 = 1;

// How many rows wait, at line 6 or 7. (A chain of iterators made the loop of a run, which this is compiled into, a tenth slower
// by `tests/run_cost.py`.)
fn waiting_in(t: Table) -> usize
    ensures { result ≡ waiting_of t }
{
    let mut waiting = 0;
    for row in &t.rows {
        if fields::number_within(6, 7, row.core.line) {
            waiting += 1;
        }
    }
    waiting
}

// The answer of a run that is refused as a whole: all counts and the place are 0.
fn refused(t: Table, refusal: Refusal) -> Ran
    ensures { result ≡ refused_run t (Some refusal) }
{
    Ran {
        table: t,
        moved: 0,
        waited: 0,
        entries: 0,
        waiting: 0,
        place: 0,
        stop: Some(refusal),
    }
}

// The answer of a run that ends in table t at this place, the number of bytes taken; those that did not move waited.
fn ended(t: Table, moved: usize, entries: usize, place: usize, stop: Option<Refusal>) -> Ran
    requires { moved ≤ place }
    ensures { result ≡ ended_run t moved entries place stop }
{
    let waiting = waiting_in(t);
    Ran {
        table: t,
        moved,
        waited: place - moved,
        entries,
        waiting,
        place,
        stop,
    }
}

// The entry of process i, where its step is one, goes into the buffer after those before it. Answers how many there are then. (A struct
// of the buffer and the count would have this one method, and the loop's invariant would speak of both all the same.)
fn note_entry(entries: &mut [u8], count: usize, line: u8, i: u8) -> usize
    requires { count < length entries.old }
    ensures value { result ≡ count + cond (eqb line line_of_entry) 1 0 }
    ensures entries_after { entries.new ≡ cond (eqb line line_of_entry) (set entries.old count i) entries.old }
{
    if line == LINE_OF_ENTRY {
        entries[count] = i;
        return count + 1;
    }
    count
}

// The bytes of a schedule, taken one after another up to the first that is refused. A step keeps the table well formed, so it is not
// checked again for each; and it touches its own row and X alone. The row is copied out inside each arm of the `match`, changed, and put
// back at once: one that passed through a join of arms would be copied whole once more. (A match on the line is a required form.)
pub(crate) fn course(start: Table, schedule: &[u8], entries: &mut [u8]) -> Ran
    requires formed { well_formed start ≡ true }
    requires room { length schedule.now ≤ length entries.old }
    ensures value { result ≡ answer_of (course_of start schedule.now) }
    ensures entries_after { entries.new ≡ in_front (entered_in (course_of start schedule.now).turns) entries.old }
{
    let mut t = start;
    let mut moved: usize = 0;
    let mut entered: usize = 0;
    for (k, &i) in schedule.iter().enumerate() {
        if !fields::number_within(1, t.n, i) {
            return ended(t, moved, entered, k, Some(Refusal::BadProcessNumber));
        }
        let p = place_of(i);
        let line = t.rows[p].core.line;
        let q = place_of(t.rows[p].core.index);
        let seen = seen_in(Value(t.x), t.rows[q].core);
        let process = Process {
            algorithm: t.algorithm,
            n: t.n,
            i,
            seen,
        };
        match line {
            2 => {
                let r = t.rows[p];
                let w = process.line_2(r.core);
                t.rows[p] = with_read(seen, w.core, r);
                moved += 1;
            }
            4 => {
                let r = t.rows[p];
                let w = process.line_4(next_of(t.algorithm, t.n, r), r.core);
                if w.stop.is_some() {
                    return ended(t, moved, entered, k, w.stop);
                }
                t.rows[p] = cleared(w.core);
                moved += 1;
            }
            6..=7 => {
                let r = t.rows[p];
                let w = process.waiting_line(r.core);
                if w.mark == MOVED {
                    t.rows[p] = with_core(w.core, r);
                    moved += 1;
                }
            }
            _ => {
                let r = t.rows[p];
                let w = process.other_line(r.core);
                entered = note_entry(entries, entered, line, i);
                t.rows[p] = with_core(w.core, r);
                t.x = w.x;
                moved += 1;
            }
        }
    }
    ended(t, moved, entered, schedule.len(), None)
}

// A run over a schedule from a table: refusals 3, 6, 7, then 4 or 5 byte by byte. Each entry's process number goes to the front of the lent
// buffer, whose other bytes keep their values.
#[tactic(auto, unfolding(crate::specs::Run::run_refusal, crate::specs::Run::run_of, crate::specs::Run::buffer_of))]
pub fn run(t: Table, schedule: &[u8], entries: &mut [u8]) -> Ran
    ensures value { result ≡ run_of t schedule.now entries.old }
    ensures entries_after { entries.new ≡ buffer_of t schedule.now entries.old }
{
    if !table::well_formed(t) {
        return refused(t, Refusal::NotWellFormed);
    }
    if schedule.len() > SCHEDULE_LIMIT {
        return refused(t, Refusal::ScheduleTooLong);
    }
    if schedule.len() > entries.len() {
        return refused(t, Refusal::EntriesTooShort);
    }
    course(t, schedule, entries)
}
