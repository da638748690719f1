// Reading a stored form: the table of a form that has no fault, and the answer of `read`.
ghost use Rattle.std.specs.Prelude.{◌≡◌, ◌≤◌, length};
ghost use Rattle.fields.specs.Numbers.{slots, none, unbounded};
ghost use Rattle.table.specs.Fresh.{fresh_table};
ghost use Rattle.stored.specs.Form.{form_length};
ghost use Rattle.stored.specs.Fields.{count_in, core_in, cell_in, filled, row_in, table_in};
ghost use Rattle.stored.specs.Reading.{refused_read, read_of};

use crate::bytes::number_at;
use crate::faults::{check_form, refusal_of};
use crate::places::Records;
use crate::{
    ALGORITHM_PLACE, CHOOSING_PLACE, COUNT_PLACE, Found, INDEX_PLACE, LINE_PLACE, PIVOT_PLACE,
    Restored, TOKEN_PLACE, X_PLACE,
};
use fields::{MOST_PROCESSES, NONE, SLOTS, UNBOUNDED};
use table::{Core, Row, Table};

// (`k as u8`: a place below sixteen.)
fn cells_in(records: &Records) -> [i32; SLOTS]
    ensures { result ≡ filled (cell_in records.now.form.now records.now.process) slots none }
{
    let mut cells = [NONE; SLOTS];
    for (k, cell) in cells.iter_mut().enumerate() {
        *cell = number_at(records.form, records.cell_place(k as u8 + 1)).0;
    }
    cells
}

fn core_in(records: &Records) -> Core
    ensures { result ≡ core_in records.now.form.now records.now.process }
{
    let form = records.form;
    let at = records.row_place();
    Core {
        line: form[at + LINE_PLACE],
        index: form[at + INDEX_PLACE],
        choosing: form[at + CHOOSING_PLACE],
        token: number_at(form, at + TOKEN_PLACE).0,
        pivot: number_at(form, at + PIVOT_PLACE).0,
    }
}

#[tactic(auto, unfolding(crate::specs::Fields::row_in))]
fn row_in(records: &Records) -> Row
    ensures { result ≡ row_in records.now.form.now records.now.process }
{
    Row {
        core: core_in(records),
        cells: cells_in(records),
    }
}

// The fresh unbounded table for n = 1, which `table::fresh` builds.
#[tactic(auto, unfolding(table::specs::Fresh::fresh_of))]
fn fresh_table() -> Table
    ensures { result ≡ fresh_table unbounded 1 }
{
    table::fresh(UNBOUNDED, 1).table
}

// The table of a form that has no fault. Its rows above n stay as in a fresh table. (By an index: an iterator over a part of the rows tells a proof
// nothing of the others, which stay, and `array::from_fn` not that an element is what its closure answers.)
fn table_in(form: &[u8]) -> Table
    requires few { count_in form.now ≤ slots }
    requires whole { length form.now ≡ form_length (count_in form.now) }
    ensures { result ≡ table_in form.now }
{
    let n = form[COUNT_PLACE];
    let mut t = fresh_table();
    t.algorithm = form[ALGORITHM_PLACE];
    t.n = n;
    t.x = number_at(form, X_PLACE).0;
    for k in 0..n {
        t.rows[usize::from(k)] = row_in(&Records {
            form,
            process: k + 1,
        });
    }
    t
}

// The answer to a form that is refused.
fn refused(found: Found) -> Restored
    ensures { result ≡ refused_read found.fault found.place }
{
    Restored {
        table: fresh_table(),
        stop: Some(refusal_of(found.fault)),
        place: found.place,
    }
}

// Reads a stored form: refusals 9, 10, 11 and 12, with their places.
pub fn read(form: &[u8]) -> Restored
    ensures { result ≡ read_of form.now }
{
    if let Err(found) = check_form(form) {
        return refused(found);
    }
    Restored {
        table: table_in(form),
        stop: None,
        place: form.len(),
    }
}
