// Demand 3's words on two tables: "after every byte all rows agree in line, index and choosing flag; X and every token, pivot and read cell
// of the bounded table is the unbounded one's remainder modulo 2n - 1, with -1 for -1; and at most one process stands at lines 8 to 10."
ghost use Rattle.std.specs.Prelude.{◌≡◌, ◌<◌};
ghost use Rattle.fields.specs.Numbers.{modulus_of};
ghost use Rattle.demands.specs.Agreement.{f, is_remainder, row_agrees, agree, at_most_one, meets};

use crate::count::ProcessCount;
use fields::NONE;
use table::{Row, Table};

// A modulus of the mapping from the unbounded table's numbers to the bounded one's.
#[derive(Clone, Copy)]
struct Modulus {
    m: u32,
    ghost positive: { 0 < m },
}

impl Modulus {
    // M = 2n - 1.
    fn of_count(count: ProcessCount) -> Modulus
        ensures { result.m ≡ modulus_of count.n }
    {
        Modulus {
            m: 2 * u32::from(count.n) - 1,
        }
    }

    // Source 002's f: the remainder of a number, and -1 for -1, the only number below 0 that a table holds. (`as` drops a sign that is
    // not there.)
    #[tactic(auto, using(crate::proofs::Remainder::below_zero, crate::proofs::Remainder::from_zero))]
    fn image(self, v: i32) -> i32
        ensures { result ≡ f self.m v }
    {
        if v < 0 {
            NONE
        } else {
            (v as u32 % self.m) as i32
        }
    }

    #[tactic(auto, using(fields::proofs::Bits::same_bits), unfolding(demands::specs::Agreement::is_remainder))]
    fn is_remainder(self, unbounded: i32, bounded: i32) -> bool
        ensures { result ≡ is_remainder self.m unbounded bounded }
    {
        bounded == self.image(unbounded)
    }

    fn row_agrees(self, unbounded: &Row, bounded: &Row) -> bool
        ensures { result ≡ row_agrees self.m unbounded.now bounded.now }
    {
        let u = unbounded.core;
        let b = bounded.core;
        u.line == b.line
            && u.index == b.index
            && u.choosing == b.choosing
            && self.is_remainder(u.token, b.token)
            && self.is_remainder(u.pivot, b.pivot)
            && unbounded
                .cells
                .iter()
                .zip(&bounded.cells)
                .all(|(&x, &y)| self.is_remainder(x, y))
    }

    fn tables_agree(self, unbounded: Table, bounded: Table) -> bool
        ensures { result ≡ agree self.m unbounded bounded }
    {
        self.is_remainder(unbounded.x, bounded.x)
            && unbounded
                .rows
                .iter()
                .zip(&bounded.rows)
                .all(|(x, y)| self.row_agrees(x, y))
    }
}

fn at_most_one(t: Table) -> bool
    ensures { result ≡ at_most_one t }
{
    t.rows
        .iter()
        .filter(|row| matches!(row.core.line, 8..=10))
        .count()
        <= 1
}

// Demand 3 after a byte.
#[tactic(auto, unfolding(demands::specs::Agreement::meets))]
pub(crate) fn is_met(count: ProcessCount, unbounded: Table, bounded: Table) -> bool
    ensures { result ≡ meets count.n unbounded bounded }
{
    Modulus::of_count(count).tables_agree(unbounded, bounded)
        && at_most_one(unbounded)
        && at_most_one(bounded)
}
