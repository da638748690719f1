// The two machines side by side: both are given the same byte, and what they answer is held together.
use crate::count::ProcessCount;
use crate::demand;
use crate::tally::{Event, Outcome};
use fields::{BOUNDED, LINE_OF_ENTRY, Refusal, UNBOUNDED};
use machine::Stepped;
use table::Table;

// A table of each machine, for the same processes.
#[derive(Drop)]
pub(crate) struct Pair {
    count: ProcessCount,
    unbounded: Table,
    bounded: Table,
}

// Whether the process stands at the line of the entry, "8: X takes the token; line 9". A number that is none does not.
fn stands_at_entry(t: Table, process: u8) -> bool {
    process
        .checked_sub(1)
        .and_then(|k| t.rows.get(usize::from(k)))
        .is_some_and(|row| row.core.line == LINE_OF_ENTRY)
}

// The stop that both machines must give a byte: only a "process number 0 or above n" is refused. Refusal 5 would need a token above
// 1,000,000, for which the schedules are too short; it would count as a disagreement.
fn stop_due(n: u8, byte: u8) -> Option<Refusal> {
    if (1..=n).contains(&byte) {
        None
    } else {
        Some(Refusal::BadProcessNumber)
    }
}

// "On refusal step returns the given table and the mark 0".
fn kept_if_refused(before: Table, after: Stepped) -> bool {
    after.stop.is_none() || (after.mark == 0 && after.table == before)
}

// What a machine did at a byte, given the table before it.
fn outcome_of(before: Table, byte: u8, after: Stepped) -> Outcome {
    if after.stop.is_some() {
        Outcome::Refused
    } else if after.mark == 0 {
        Outcome::Waited
    } else if stands_at_entry(before, byte) {
        Outcome::Entered
    } else {
        Outcome::Moved
    }
}

impl Pair {
    pub(crate) fn fresh(count: ProcessCount) -> Pair {
        Pair {
            count,
            unbounded: table::fresh(UNBOUNDED, count.n).table,
            bounded: table::fresh(BOUNDED, count.n).table,
        }
    }

    // Whether the machines, which held this pair, agree in what they answer to the byte.
    fn agrees(&self, byte: u8, after_u: Stepped, after_b: Stepped) -> bool {
        let due = stop_due(self.count.n, byte);
        after_u.stop == due
            && after_b.stop == due
            && after_u.mark == after_b.mark
            && kept_if_refused(self.unbounded, after_u)
            && kept_if_refused(self.bounded, after_b)
            && demand::is_met(self.count, after_u.table, after_b.table)
    }

    // Both machines are given the byte.
    pub(crate) fn give(&mut self, byte: u8) -> Event {
        let after_u = machine::step(self.unbounded, byte);
        let after_b = machine::step(self.bounded, byte);
        let event = Event {
            outcome: outcome_of(self.unbounded, byte, after_u),
            agreed: self.agrees(byte, after_u, after_b),
        };
        self.unbounded = after_u.table;
        self.bounded = after_b.table;
        event
    }
}
