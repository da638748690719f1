// How long a stored form is, and where the records of a process and their cells stand in it.
ghost use Rattle.std.specs.Prelude.{◌≡◌, ◌≤◌, length};
ghost use Rattle.stored.specs.Form.{form_length};
ghost use Rattle.stored.specs.Fields.{top_in, row_place, cells_place, cell_place};

use crate::{ALGORITHM_PLACE, CELLS_LENGTH, COUNT_PLACE, HEAD_LENGTH, ROW_LENGTH};
use fields::Value;

// The length of a form for n processes.
pub(crate) fn form_length(n: u8) -> usize
    ensures { result ≡ form_length n }
{
    HEAD_LENGTH + (ROW_LENGTH + CELLS_LENGTH) * usize::from(n)
}

// The records of a process, in a form that has room for them.
#[derive(Clone, Copy)]
pub(crate) struct Records<'a> {
    pub(crate) form: &'a [u8],
    pub(crate) process: u8,
    ghost from_one: { 1 ≤ process },
    ghost room: { form_length process ≤ length form.now },
}

impl<'a> Records<'a> {
    // T of the table in the form.
    pub(crate) fn top(&self) -> Value
        ensures { result.0 ≡ top_in self.now.form.now }
    {
        fields::limit_of(self.form[ALGORITHM_PLACE], self.form[COUNT_PLACE])
    }

    // Where the records begin.
    pub(crate) fn row_place(&self) -> usize
        ensures { result ≡ row_place self.now.process }
    {
        form_length(self.process - 1)
    }

    // Where the record of the read cells begins.
    pub(crate) fn cells_place(&self) -> usize
        ensures { result ≡ cells_place self.now.process }
    {
        self.row_place() + ROW_LENGTH
    }

    // Where read cell j stands, after the kind and the process number.
    pub(crate) fn cell_place(&self, j: u8) -> usize
        requires { 1 ≤ j }
        ensures { result ≡ cell_place self.now.process j }
    {
        self.cells_place() + 2 + 4 * usize::from(j - 1)
    }
}
