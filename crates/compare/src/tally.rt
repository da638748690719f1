// Totals over the bytes given.
ghost use Rattle.std.specs.Prelude.{◌≡◌, ◌+◌, ◌≤◌, ◌<◌, ◌^◌};

use std::fmt;
use std::ops::AddAssign;

// What the unbounded machine did at one byte.
#[derive(Clone, Copy)]
pub(crate) enum Outcome {
    Refused,
    // the byte was taken and changed nothing
    Waited,
    Moved,
    // a move, "8: X takes the token; line 9. This step is the entry."
    Entered,
}

impl Outcome {
    pub(crate) fn is_move(self) -> bool {
        matches!(self, Outcome::Moved | Outcome::Entered)
    }
}

// What came of one byte: the outcome, and whether the machines agree after it.
#[derive(Clone, Copy)]
pub(crate) struct Event {
    pub(crate) outcome: Outcome,
    pub(crate) agreed: bool,
}

// Bytes given and, among them, entries, waits, refused bytes, and bytes after which the machines did not agree. No total is above the
// number of bytes, so that where the bytes fit all do.
#[derive(Clone, Copy)]
pub(crate) struct Tally {
    pub(crate) bytes: u64,
    entries: u64,
    waits: u64,
    refused: u64,
    disagreements: u64,
    ghost entries_within: { entries ≤ bytes },
    ghost waits_within: { waits ≤ bytes },
    ghost refused_within: { refused ≤ bytes },
    ghost disagreements_within: { disagreements ≤ bytes },
}

impl Tally {
    pub(crate) const EMPTY: Tally = Tally {
        bytes: 0,
        entries: 0,
        waits: 0,
        refused: 0,
        disagreements: 0,
    };

    // One byte more.
    pub(crate) fn count(&mut self, event: Event)
        requires { self.old.bytes + 1 < 2 ^ 64 }
        ensures { self.new.bytes ≡ self.old.bytes + 1 }
    {
        self.bytes += 1;
        match event.outcome {
            Outcome::Refused => self.refused += 1,
            Outcome::Waited => self.waits += 1,
            Outcome::Moved => {}
            Outcome::Entered => self.entries += 1,
        }
        self.disagreements += u64::from(!event.agreed);
    }
}

impl AddAssign for Tally {
    ghost can_add_assign = { λ self other. self.bytes + other.bytes < 2 ^ 64 };

    ghost add_assign_gives = { λ before other after. after.bytes ≡ before.bytes + other.bytes };

    fn add_assign(&mut self, other: Tally) {
        self.bytes += other.bytes;
        self.entries += other.entries;
        self.waits += other.waits;
        self.refused += other.refused;
        self.disagreements += other.disagreements;
    }
}

impl fmt::Display for Tally {
    fn fmt<W: fmt::Write>(&self, f: &mut fmt::Formatter<W>) -> fmt::Result {
        write!(
            f,
            "bytes {} entries {} waits {} refused {} disagreements {}",
            self.bytes, self.entries, self.waits, self.refused, self.disagreements
        )
    }
}
