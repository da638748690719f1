// The first fault of a stored form: its checks, in the order of document 01. What a check asks of a form, that it has the bytes at a place, an
// earlier check has found.
ghost use Rattle.std.specs.Prelude.{◌≡◌, ◌+◌, ◌≤◌, [], ◌∷◌, length, IsOk};
ghost use Rattle.laws.specs.InTurn.{in_turn};
ghost use Rattle.fields.specs.Numbers.{slots};
ghost use Rattle.stored.specs.Form.{head_length, form_length};
ghost use Rattle.stored.specs.Fields.{count_in};
ghost use Rattle.stored.specs.Kinds.{kind_number};
ghost use Rattle.stored.specs.Reading.{refusal_of, check, first_fault, start_checks, head_checks, length_checks, opening_checks, fields_checks};
ghost use Rattle.stored.specs.Reading.{row_checks, cell_keeps, records_checks, checks_of};

use crate::bytes::number_at;
use crate::places::{Records, form_length};
use crate::{
    ALGORITHM_PLACE, CHOOSING_PLACE, COUNT_PLACE, Fault, Found, HEAD_LENGTH, INDEX_PLACE, Kind,
    LINE_PLACE, PIVOT_PLACE, TOKEN_PLACE, X_PLACE,
};
use fields::{MOST_PROCESSES, Refusal};

// The refusal for what is at fault.
#[tactic(auto, unfolding(crate::specs::Reading::refusal_of))]
pub(crate) fn refusal_of(fault: Fault) -> Refusal
    ensures { Some result ≡ refusal_of fault }
{
    match fault {
        Fault::TooShort => Refusal::FormTooShort,
        Fault::TooLong => Refusal::FormTooLong,
        Fault::Kind => Refusal::WrongKind,
        Fault::HeadField
        | Fault::Process
        | Fault::Line
        | Fault::Index
        | Fault::Choosing
        | Fault::Token
        | Fault::Pivot
        | Fault::Cell => Refusal::BadField,
    }
}

// One check: where it does not hold, what is at fault and its place.
#[tactic(auto, unfolding(crate::specs::Reading::first_fault))]
fn check(holds: bool, fault: Fault, place: usize) -> Result<(), Found>
    ensures { result ≡ first_fault (check holds fault place ∷ []) }
{
    if holds {
        Ok(())
    } else {
        Err(Found { fault, place })
    }
}

// That there are bytes enough for a head.
#[tactic(auto, unfolding(crate::specs::Reading::first_fault, crate::specs::Reading::start_checks))]
fn check_start(form: &[u8]) -> Result<(), Found>
    ensures first { result ≡ first_fault (start_checks form.now) }
    ensures room { IsOk result → head_length ≤ length form.now }
{
    check(HEAD_LENGTH <= form.len(), Fault::TooShort, form.len())
}

#[tactic(auto, unfolding(crate::specs::Reading::first_fault, crate::specs::Reading::head_checks))]
fn check_head(form: &[u8]) -> Result<(), Found>
    requires { head_length ≤ length form.now }
    ensures first { result ≡ first_fault (head_checks form.now) }
    ensures few { IsOk result → count_in form.now ≤ slots }
{
    check(form[0] == Kind::Head as u8, Fault::Kind, 0)?;
    let algorithm = form[ALGORITHM_PLACE];
    check(
        fields::algorithm_ok(algorithm),
        Fault::HeadField,
        ALGORITHM_PLACE,
    )?;
    let n = form[COUNT_PLACE];
    check(fields::count_ok(n), Fault::HeadField, COUNT_PLACE)?;
    let x = number_at(form, X_PLACE);
    check(
        fields::x_ok(fields::limit_of(algorithm, n), x),
        Fault::HeadField,
        X_PLACE,
    )
}

// A form that passes it is as long as its process count says, which `check_records` and `table_in` ask. (A struct of such a form would
// have to be handed out of the checks, beside the faults: no plainer.)
#[tactic(auto, unfolding(crate::specs::Reading::first_fault, crate::specs::Reading::length_checks))]
fn check_length(form: &[u8]) -> Result<(), Found>
    requires { head_length ≤ length form.now }
    ensures first { result ≡ first_fault (length_checks form.now) }
    ensures whole { IsOk result → length form.now ≡ form_length (count_in form.now) }
{
    let length = form.len();
    let due = form_length(form[COUNT_PLACE]);
    check(due <= length, Fault::TooShort, length)?;
    check(length <= due, Fault::TooLong, due)
}

// How a record of a process opens: its kind, and the process number.
#[tactic(auto, unfolding(crate::specs::Reading::first_fault, crate::specs::Reading::opening_checks))]
fn check_opening(form: &[u8], kind: Kind, process: u8, at: usize) -> Result<(), Found>
    requires { at + 2 ≤ length form.now }
    ensures { result ≡ first_fault (opening_checks form.now (kind_number kind) process at) }
{
    check(form[at] == kind as u8, Fault::Kind, at)?;
    check(form[at + 1] == process, Fault::Process, at + 1)
}

// The fields of a row, in byte order.
#[tactic(auto, unfolding(crate::specs::Reading::first_fault, crate::specs::Reading::fields_checks))]
fn check_fields(records: &Records) -> Result<(), Found>
    ensures { result ≡ first_fault (fields_checks records.now.form.now records.now.process) }
{
    let Records { form, process, .. } = *records;
    let top = records.top();
    let at = records.row_place();
    let n = form[COUNT_PLACE];
    let line = form[at + LINE_PLACE];
    check(
        fields::line_ok(n, process, line),
        Fault::Line,
        at + LINE_PLACE,
    )?;
    let index = form[at + INDEX_PLACE];
    check(
        fields::index_ok(n, process, line, index),
        Fault::Index,
        at + INDEX_PLACE,
    )?;
    let choosing = form[at + CHOOSING_PLACE];
    check(
        fields::choosing_ok(line, choosing),
        Fault::Choosing,
        at + CHOOSING_PLACE,
    )?;
    let token = number_at(form, at + TOKEN_PLACE);
    check(
        fields::token_ok(top, line, token),
        Fault::Token,
        at + TOKEN_PLACE,
    )?;
    let pivot = number_at(form, at + PIVOT_PLACE);
    check(
        fields::pivot_ok(top, line, pivot),
        Fault::Pivot,
        at + PIVOT_PLACE,
    )
}

#[tactic(auto, using(crate::proofs::Checks::found_first, crate::proofs::Checks::found_next, crate::proofs::Checks::handed_on), unfolding(crate::specs::Reading::row_checks))]
fn check_row(records: &Records) -> Result<(), Found>
    ensures { result ≡ first_fault (row_checks records.now.form.now records.now.process) }
{
    check_opening(
        records.form,
        Kind::Row,
        records.process,
        records.row_place(),
    )?;
    check_fields(records)
}

// Whether read cell j of a process keeps its rule.
#[tactic(auto, unfolding(crate::specs::Reading::cell_keeps))]
fn cell_keeps(records: &Records, j: u8) -> bool
    requires some { 1 ≤ j }
    requires most { j ≤ slots }
    ensures { result ≡ cell_keeps records.now.form.now records.now.process j }
{
    let form = records.form;
    let at = records.row_place();
    let line = form[at + LINE_PLACE];
    let index = form[at + INDEX_PLACE];
    let may = fields::may_hold(form[COUNT_PLACE], records.process, line, index, j);
    fields::cell_ok(records.top(), may, number_at(form, records.cell_place(j)))
}

// The first fault of the records of all processes. Rows and cells are walked in nested loops, left by the label with the place: a
// required form.
#[tactic(auto, unfolding(crate::specs::Reading::first_fault, laws::specs::InTurn::in_turn))]
fn check_records(form: &[u8]) -> Result<(), Found>
    requires few { count_in form.now ≤ slots }
    requires whole { length form.now ≡ form_length (count_in form.now) }
    ensures { result ≡ first_fault (in_turn (records_checks form.now) (count_in form.now)) }
{
    'rows: {
        for process in 1..=form[COUNT_PLACE] {
            let records = Records { form, process };
            if let Err(found) = check_row(&records) {
                break 'rows Err(found);
            }
            if let Err(found) = check_opening(form, Kind::Cells, process, records.cells_place()) {
                break 'rows Err(found);
            }
            for j in 1..=MOST_PROCESSES {
                if !cell_keeps(&records, j) {
                    break 'rows Err(Found {
                        fault: Fault::Cell,
                        place: records.cell_place(j),
                    });
                }
            }
        }
        Ok(())
    }
}

// The first fault of a form.
#[tactic(auto, using(crate::proofs::Checks::found_first, crate::proofs::Checks::found_next, crate::proofs::Checks::handed_on), unfolding(crate::specs::Reading::checks_of))]
pub(crate) fn check_form(form: &[u8]) -> Result<(), Found>
    ensures { result ≡ first_fault (checks_of form.now) }
{
    check_start(form)?;
    check_head(form)?;
    check_length(form)?;
    check_records(form)
}
