// A token of each of the two machines, as a type of its own.
ghost use Rattle.std.specs.Prelude.{◌≡◌, cond, pos, ◌+ℤ◌, ◌-ℤ◌, MatchOption, false};
ghost use Rattle.std.specs.Int.Signed.{lt_z};
ghost use Rattle.fields.specs.Numbers.{token_limit, modulus_of};
ghost use Rattle.fields.specs.Rules.{count_ok};
ghost use Rattle.tokens.specs.Count.{Count};
ghost use Rattle.tokens.specs.Tokens.{remainder, largest, shifted, shifted_cell, next_b, before_ub, before_b};

use fields::{NONE, SLOTS, TOKEN_LIMIT, Value};

// A token of UB-Bakery, and a token of B-Bakery, which is one modulo 2n - 1. Source 002 takes the one to the other by its mapping f; here
// no function takes one of each. (Two types are a required form.)
#[derive(Clone, Copy)]
pub(crate) struct UbToken(pub(crate) i32);

#[derive(Clone, Copy)]
pub(crate) struct BToken(pub(crate) i32);

impl UbToken {
    // The largest of the pivot and the read cells.
    #[tactic(auto, using(std::proofs::lemmas::Int::ints, crate::proofs::Largest::largest_fold))]
    pub(crate) fn largest(pivot: UbToken, cells: &[i32; SLOTS]) -> UbToken
        ensures { result.0 ≡ largest pivot.0 cells.now }
    {
        UbToken(cells.iter().copied().fold(pivot.0, i32::max))
    }

    // 1 + this token, or none where that is above the limit.
    pub(crate) fn next(self) -> Option<UbToken>
        ensures { result ≡ cond (lt_z (pos token_limit) (pos 1 +ℤ self.0)) None (Some (record { 0 = pos 1 +ℤ self.0 })) }
    {
        if self.0 >= TOKEN_LIMIT {
            return None;
        }
        Some(UbToken(1 + self.0))
    }

    // Whether process i, which holds this token, goes before process j. (By the comparisons of `Value`, which are public because this
    // crate calls them.)
    #[tactic(auto, using(std::proofs::lemmas::Int::ints), unfolding(crate::specs::Tokens::before_ub))]
    pub(crate) fn goes_before(self, i: u8, other: UbToken, j: u8) -> bool
        ensures { result ≡ before_ub i self.0 j other.0 }
    {
        let own = Value(self.0);
        let its = Value(other.0);
        own.is_below(its) || own.equals(its) && i < j
    }
}

impl BToken {
    // Whether process i, which holds this token, goes before process j. (`&` and `|`, which do not branch: a run is a tenth
    // faster by `tests/run_cost.py`.)
    pub(crate) fn goes_before(self, count: ProcessCount, i: u8, other: BToken, j: u8) -> bool
        ensures { result ≡ before_b count.n i self.0 j other.0 }
    {
        let d = count.remainder(i64::from(other.0) - i64::from(self.0));
        ((1 <= d) & (d <= count.n - 1)) | ((d == 0) & (i < j))
    }
}

// A process count that a table may have.
#[derive(Clone, Copy)]
pub(crate) struct ProcessCount {
    n: u8,
    ghost counted: { Count n },
}

impl ProcessCount {
    pub(crate) fn new(n: u8) -> Option<ProcessCount>
        ensures { MatchOption result (count_ok n ≡ false) (λ count. count.n ≡ n) }
    {
        if !fields::count_ok(n) {
            return None;
        }
        Some(ProcessCount { n })
    }

    // The remainder by M = 2n - 1, mended to lie in 0 to M - 1: the processor's has the sign of the number. (A required form; `as`
    // narrows, and the check proves that nothing is lost.)
    fn remainder(self, number: i64) -> u8
        ensures { result ≡ remainder number (modulus_of self.n) }
    {
        let modulus = i64::from(2 * self.n - 1);
        let rest = number % modulus;
        if rest < 0 {
            (rest + modulus) as u8
        } else {
            rest as u8
        }
    }
}

// The bounded machine's shift of tokens, which takes the pivot to n - 1.
#[derive(Clone, Copy)]
pub(crate) struct Shift {
    pub(crate) count: ProcessCount,
    pub(crate) pivot: BToken,
}

impl Shift {
    // (v + n - 1 - p) mod M
    fn shifted(self, v: BToken) -> i32
        ensures { result ≡ pos (shifted self.count.n self.pivot.0 v.0) }
    {
        let raised = i64::from(v.0) + i64::from(self.count.n) - 1;
        i32::from(self.count.remainder(raised - i64::from(self.pivot.0)))
    }

    // The same of a read cell, which may hold none.
    #[tactic(auto, using(std::proofs::lemmas::Int::ints), unfolding(crate::specs::Tokens::shifted_cell))]
    fn shifted_cell(self, cell: i32) -> i32
        ensures { result ≡ shifted_cell self.count.n self.pivot.0 cell }
    {
        if cell == NONE {
            return NONE;
        }
        self.shifted(BToken(cell))
    }

    // (m + p - n + 2) mod M. (By `of_number`, which is public because this crate calls it.)
    fn unshifted(self, most: i32) -> BToken
        ensures { result.0 ≡ pos (remainder (most +ℤ self.pivot.0 -ℤ pos self.count.n +ℤ pos 2) (modulus_of self.count.n)) }
    {
        let sum = i64::from(most) + i64::from(self.pivot.0);
        let next = self.count.remainder(sum - i64::from(self.count.n) + 2);
        BToken(Value::of_number(u16::from(next)).0)
    }

    // The next token: (m + p - n + 2) mod M, where m is the largest of the shifted pivot and the shifted read cells.
    pub(crate) fn next(self, cells: &[i32; SLOTS]) -> BToken
        ensures { result.0 ≡ next_b self.count.n self.pivot.0 cells.now }
    {
        let own = self.shifted(self.pivot);
        let others = cells.iter().copied().map(|cell| self.shifted_cell(cell));
        self.unshifted(others.fold(own, i32::max))
    }
}
