// The two machines of document 01, the unbounded (UB-Bakery) and the bounded (B-Bakery): one step of a table, and a run over a schedule.
#![tactic(auto)]

mod lines;
mod rows;
mod running;
mod stepping;

use fields::Refusal;
pub use running::run;
pub use stepping::step;
use table::{Core, Table};

// What a step sees outside its own row: of the process at its index the choosing flag and the token, and X.
#[derive(Clone, Copy)]
pub(crate) struct Seen {
    pub(crate) choosing: u8,
    pub(crate) token: i32,
    pub(crate) x: i32,
}

// What comes of a line: the core of the row, X, the mark and the stop number. The mark is a number, here and below, as document 01 has it: the
// definitions `moves` and `refuses`, the law `step_mark` and the theorem `PassageAlone` speak of 1 and 0.
#[derive(Clone, Copy)]
pub(crate) struct Went {
    pub(crate) core: Core,
    pub(crate) x: i32,
    pub(crate) mark: u8,
    pub(crate) stop: Option<Refusal>,
}

// The answer of `step`. No Result, here and below: on a refusal they answer the table and the counts too, as `refused_step`, `refused_run` and, of
// 4 and 5, `answer_of` say.
#[derive(Clone, Copy)]
pub struct Stepped {
    pub table: Table,
    pub mark: u8,
    pub stop: Option<Refusal>,
}

// The answer of `run`.
#[derive(Clone, Copy)]
pub struct Ran {
    pub table: Table,
    pub moved: usize,
    pub waited: usize,
    pub entries: usize,
    pub waiting: usize,
    pub place: usize,
    pub stop: Option<Refusal>,
}
