// Writing a table: the records of its stored form, copied one after another to the front of a lent buffer.
ghost use Rattle.std.specs.Prelude.{◌≡◌, ◌+◌, ◌≤◌, length};
ghost use Rattle.laws.specs.Lent.{Written};
ghost use Rattle.fields.specs.Numbers.{slots};
ghost use Rattle.stored.specs.Form.{head_record, row_record, cells_record, encode, form_length};
ghost use Rattle.stored.specs.Writing.{write_of, buffer_of};

use crate::places::form_length;
use crate::{
    ALGORITHM_PLACE, CELLS_LENGTH, CHOOSING_PLACE, COUNT_PLACE, HEAD_LENGTH, INDEX_PLACE, Kind,
    LINE_PLACE, PIVOT_PLACE, ROW_LENGTH, TOKEN_PLACE, Wrote, X_PLACE,
};
use fields::Refusal;
use table::{Core, Row, Table};

// (X by `x_of`, which is public because this crate calls it.)
#[tactic(auto, using(crate::proofs::Numbers::library_bytes), unfolding(crate::specs::Form::head_record, crate::specs::FourBytes::four_bytes, crate::specs::FourBytes::four_digits))]
fn head_record(t: Table) -> [u8; HEAD_LENGTH]
    ensures { result ≡ head_record t }
{
    let mut record = [0; HEAD_LENGTH];
    record[0] = Kind::Head as u8;
    record[ALGORITHM_PLACE] = t.algorithm;
    record[COUNT_PLACE] = t.n;
    record[X_PLACE..].copy_from_slice(&table::x_of(t).0.to_le_bytes());
    record
}

#[tactic(auto, using(crate::proofs::Numbers::library_bytes), unfolding(crate::specs::Form::row_record, crate::specs::FourBytes::four_bytes, crate::specs::FourBytes::four_digits))]
fn row_record(process: u8, core: Core) -> [u8; ROW_LENGTH]
    ensures { result ≡ row_record process core }
{
    let mut record = [0; ROW_LENGTH];
    record[0] = Kind::Row as u8;
    record[1] = process;
    record[LINE_PLACE] = core.line;
    record[INDEX_PLACE] = core.index;
    record[CHOOSING_PLACE] = core.choosing;
    record[TOKEN_PLACE..PIVOT_PLACE].copy_from_slice(&core.token.to_le_bytes());
    record[PIVOT_PLACE..].copy_from_slice(&core.pivot.to_le_bytes());
    record
}

fn cells_record(process: u8, row: Row) -> [u8; CELLS_LENGTH]
    ensures { result ≡ cells_record process row }
{
    let mut record = [0; CELLS_LENGTH];
    record[0] = Kind::Cells as u8;
    record[1] = process;
    for (k, cell) in row.cells.iter().enumerate() {
        let at = 2 + 4 * k;
        record[at..at + 4].copy_from_slice(&cell.to_le_bytes());
    }
    record
}

// Copies a piece to the buffer from a place on, and answers the place after it: the one function that writes there, so that a writer of its own
// would be no plainer.
fn put(buffer: &mut [u8], at: usize, piece: &[u8]) -> usize
    requires { at + length piece.now ≤ length buffer.old }
    ensures { Written buffer.old at piece.now buffer.new result }
{
    let next = at + piece.len();
    buffer[at..next].copy_from_slice(piece);
    next
}

fn put_form(buffer: &mut [u8], t: Table) -> usize
    requires rows { t.n ≤ slots }
    requires room { form_length t.n ≤ length buffer.old }
    ensures { Written buffer.old 0 (encode t) buffer.new result }
{
    let mut next = put(buffer, 0, &head_record(t));
    for (process, row) in (1..=t.n).zip(&t.rows) {
        next = put(buffer, next, &row_record(process, row.core));
        next = put(buffer, next, &cells_record(process, *row));
    }
    next
}

// Writes a table's stored form to the front of the lent buffer: refusals 3, then 8.
pub fn write(t: Table, buffer: &mut [u8]) -> Wrote
    ensures value { result ≡ write_of t buffer.old }
    ensures buffer_after { buffer.new ≡ buffer_of t buffer.old }
{
    if !table::well_formed(t) {
        return Wrote {
            length: 0,
            stop: Some(Refusal::NotWellFormed),
        };
    }
    let due = form_length(t.n);
    if buffer.len() < due {
        return Wrote {
            length: 0,
            stop: Some(Refusal::BufferTooShort),
        };
    }
    let length = put_form(buffer, t);
    Wrote { length, stop: None }
}
