// When a table is well formed: the rules of the fields, over its rows and their read cells.
ghost use Rattle.std.specs.Prelude.{◌≡◌, ◌+◌, ◌<◌};
ghost use Rattle.fields.specs.Numbers.{slots};
ghost use Rattle.table.specs.WellFormed.{cell_rule, cells_ok, core_ok, row_ok, row_rule, rows_ok, well_formed};

use crate::{Core, Row, Table};
use fields::{SLOTS, Value};

// X of a table, and the token of a core and its pivot. (No methods: theorems of docs/PROMISES.md name these calls.)
pub fn x_of(t: Table) -> Value
    ensures { result.0 ≡ t.x }
{
    Value(t.x)
}

pub fn token_of(c: Core) -> Value
    ensures { result.0 ≡ c.token }
{
    Value(c.token)
}

pub fn pivot_of(c: Core) -> Value
    ensures { result.0 ≡ c.pivot }
{
    Value(c.pivot)
}

// What the rules of a row are asked for: T, the process count, and the row's number.
#[derive(Clone, Copy)]
struct RowRules {
    top: Value,
    n: u8,
    i: u8,
}

// `cells_ok` here and `rows_ok` below are two lines alike, over the one law `every_listed`: the one is over the numbers of a row, the other over the
// rows. What each asks at a place below sixteen is a function for that place, which fits a byte.
impl RowRules {
    // The rule of the read cell at place k, that of process k + 1.
    #[tactic(auto, unfolding(crate::specs::WellFormed::cell_rule))]
    fn cell_at_ok(self, r: Row, k: usize) -> bool
        requires { k < slots }
        ensures { result ≡ cell_rule self.top.0 self.n self.i r (k + 1) }
    {
        let may = fields::may_hold(self.n, self.i, r.core.line, r.core.index, k as u8 + 1);
        fields::cell_ok(self.top, may, Value(r.cells[k]))
    }

    fn cells_ok(self, r: Row) -> bool
        ensures { result ≡ cells_ok self.top.0 self.n self.i r }
    {
        (0..SLOTS).all(|k| self.cell_at_ok(r, k))
    }

    #[tactic(auto, unfolding(crate::specs::WellFormed::core_ok))]
    fn core_ok(self, c: Core) -> bool
        ensures { result ≡ core_ok self.top.0 self.n self.i c }
    {
        fields::line_ok(self.n, self.i, c.line)
            && fields::index_ok(self.n, self.i, c.line, c.index)
            && fields::choosing_ok(c.line, c.choosing)
            && fields::token_ok(self.top, c.line, token_of(c))
            && fields::pivot_ok(self.top, c.line, pivot_of(c))
    }

    #[tactic(auto, unfolding(crate::specs::WellFormed::row_ok))]
    fn row_ok(self, r: Row) -> bool
        ensures { result ≡ row_ok self.top.0 self.n self.i r }
    {
        self.core_ok(r.core) && self.cells_ok(r)
    }
}

// The rules of the row at place k, that of process k + 1.
#[tactic(auto, unfolding(crate::specs::WellFormed::row_rule))]
fn row_at_ok(top: Value, t: Table, k: usize) -> bool
    requires { k < slots }
    ensures { result ≡ row_rule top.0 t (k + 1) }
{
    let rules = RowRules {
        top,
        n: t.n,
        i: k as u8 + 1,
    };
    rules.row_ok(t.rows[k])
}

fn rows_ok(top: Value, t: Table) -> bool
    ensures { result ≡ rows_ok top.0 t }
{
    (0..SLOTS).all(|k| row_at_ok(top, t, k))
}

// Whether document 01 calls the table well formed.
#[tactic(auto, unfolding(crate::specs::WellFormed::well_formed))]
pub fn well_formed(t: Table) -> bool
    ensures { result ≡ well_formed t }
{
    let top = fields::limit_of(t.algorithm, t.n);
    fields::algorithm_ok(t.algorithm)
        && fields::count_ok(t.n)
        && fields::x_ok(top, x_of(t))
        && rows_ok(top, t)
}
