// The stored form of document 01: its records, a table written to bytes, and a table read back from them, or the first fault of bytes that
// are no form.
#![tactic(auto)]

mod bytes;
mod faults;
mod places;
mod reading;
mod writing;

use fields::Refusal;
pub use reading::read;
use table::Table;
pub use writing::write;

// The kinds of record: the first byte of one is the number of its kind, which `as u8` gives.
#[derive(Clone, Copy)]
enum Kind {
    Head = 1,
    Row = 2,
    Cells = 3,
}

// The length of each record, its kind and its body.
const HEAD_LENGTH: usize = 7;

const ROW_LENGTH: usize = 13;

const CELLS_LENGTH: usize = 66;

// Where the fields of the head stand in it, and those of a row in its record.
const ALGORITHM_PLACE: usize = 1;

const COUNT_PLACE: usize = 2;

const X_PLACE: usize = 3;

const LINE_PLACE: usize = 2;

const INDEX_PLACE: usize = 3;

const CHOOSING_PLACE: usize = 4;

const TOKEN_PLACE: usize = 5;

const PIVOT_PLACE: usize = 9;

// The answers of `write` and of `read`. No Result: on a refusal they answer a length, or a table and a place, as `write_of` and `refused_read` say.
#[derive(Clone, Copy)]
pub struct Wrote {
    pub length: usize,
    pub stop: Option<Refusal>,
}

#[derive(Clone, Copy)]
pub struct Restored {
    pub table: Table,
    pub stop: Option<Refusal>,
    pub place: usize,
}

// What can be at fault in a form: its length, a kind byte, or a field.
#[derive(Clone, Copy)]
enum Fault {
    TooShort,
    TooLong,
    Kind,
    HeadField,
    Process,
    Line,
    Index,
    Choosing,
    Token,
    Pivot,
    Cell,
}

// The first fault of a form: what is at fault, and its place.
#[derive(Clone, Copy)]
struct Found {
    fault: Fault,
    place: usize,
}
