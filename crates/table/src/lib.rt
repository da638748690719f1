// The table of document 01: its rows, when it is well formed, and the fresh table.
#![tactic(auto)]

mod rules;

ghost use Rattle.std.specs.Prelude.{◌≡◌};
ghost use Rattle.table.specs.Fresh.{fresh_table, refused_fresh, fresh_of};

use fields::{NONE, Refusal, SLOTS, UNBOUNDED};
pub use rules::{pivot_of, token_of, well_formed, x_of};

// The core of a row, all but what it keeps of the tokens that it saw: "a line, an index, a choosing flag, a token, a pivot". Numbers all, since a
// table may hold any, and the rules answer for each.
#[derive(Clone, Copy, PartialEq, Eq)]
pub struct Core {
    pub line: u8,
    pub index: u8,
    pub choosing: u8,
    pub token: i32,
    pub pivot: i32,
}

// A row is its core "and sixteen read cells."
#[derive(Clone, Copy, PartialEq, Eq)]
pub struct Row {
    pub core: Core,
    pub cells: [i32; SLOTS],
}

// "Algorithm, n, X, and sixteen rows."
#[derive(Clone, Copy, PartialEq, Eq)]
pub struct Table {
    pub algorithm: u8,
    pub n: u8,
    pub x: i32,
    pub rows: [Row; SLOTS],
}

// The answer of `fresh`. No Result: on a refusal it shows a table too, as `refused_fresh` says.
#[derive(Clone, Copy)]
pub struct Started {
    pub table: Table,
    pub stop: Option<Refusal>,
}

fn fresh_table(algorithm: u8, n: u8) -> Table
    ensures { result ≡ fresh_table algorithm n }
{
    let core = Core {
        line: 1,
        index: 0,
        choosing: 0,
        token: NONE,
        pivot: NONE,
    };
    let row = Row {
        core,
        cells: [NONE; SLOTS],
    };
    Table {
        algorithm,
        n,
        x: 0,
        rows: [row; SLOTS],
    }
}

// A refusal shows, in the table's place, the fresh unbounded table for n = 1.
fn refused(refusal: Refusal) -> Started
    ensures { result ≡ refused_fresh (Some refusal) }
{
    Started {
        table: fresh_table(UNBOUNDED, 1),
        stop: Some(refusal),
    }
}

// The fresh table of a machine for n processes: refusals 1, then 2.
#[tactic(auto, unfolding(crate::specs::Fresh::fresh_of))]
pub fn fresh(algorithm: u8, n: u8) -> Started
    ensures { result ≡ fresh_of algorithm n }
{
    if !fields::algorithm_ok(algorithm) {
        return refused(Refusal::BadAlgorithm);
    }
    if !fields::count_ok(n) {
        return refused(Refusal::BadProcessCount);
    }
    Started {
        table: fresh_table(algorithm, n),
        stop: None,
    }
}
