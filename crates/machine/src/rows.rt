// The pieces of a step around its line: where a row is, what it sees of the others, and the row that it leaves.
ghost use Rattle.std.specs.Prelude.{◌≡◌, ◌-◌, ◌≤◌, set};
ghost use Rattle.fields.specs.Numbers.{slots};
ghost use Rattle.table.specs.Fresh.{all_none};
ghost use Rattle.tokens.specs.Answers.{next_of};
ghost use Rattle.machine.specs.Step.{seen_in};

use crate::Seen;
use fields::{NONE, Refusal, SLOTS, Value};
use table::{Core, Row};

// The place of a process's row or read cell: process numbers start at 1.
pub(crate) fn place_of(process: u8) -> usize
    ensures { result ≡ process - 1 }
{
    usize::from(process.saturating_sub(1))
}

// What a step sees: X, and of the row at its index the choosing flag and the token.
pub(crate) fn seen_in(x: Value, other: Core) -> Seen
    ensures { result ≡ seen_in x.0 other }
{
    Seen {
        choosing: other.choosing,
        token: other.token,
        x: x.0,
    }
}

// The next token that a row's pivot and read cells give.
pub(crate) fn next_of(algorithm: u8, n: u8, r: Row) -> Result<Value, Refusal>
    ensures { result ≡ next_of algorithm n r.core.pivot r.cells }
{
    tokens::next_token(algorithm, n, table::pivot_of(r.core), r.cells)
}

// The row with its core set anew.
pub(crate) fn with_core(core: Core, r: Row) -> Row
    ensures { result ≡ record { core = core; cells = r.cells } }
{
    Row { core, ..r }
}

// After line 2, index j: read cell j takes the token that is seen. The cells are changed as an array of their own: set inside the row, the
// whole row would be copied.
pub(crate) fn with_read(s: Seen, core: Core, r: Row) -> Row
    requires { r.core.index ≤ slots }
    ensures { result ≡ record { core = core; cells = set r.cells (r.core.index - 1) s.token } }
{
    let mut cells = r.cells;
    cells[place_of(r.core.index)] = s.token;
    Row { core, cells }
}

// After line 4 the read cells are -1.
pub(crate) fn cleared(core: Core) -> Row
    ensures { result ≡ record { core = core; cells = all_none } }
{
    Row {
        core,
        cells: [NONE; SLOTS],
    }
}
