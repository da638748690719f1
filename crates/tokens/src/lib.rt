// Tokens of the two machines: the next one, and who goes before.
#![tactic(auto)]

mod tokens;

ghost use Rattle.std.specs.Prelude.{◌≡◌};
ghost use Rattle.tokens.specs.Answers.{next_of, before_of};

use fields::{Refusal, SLOTS, UNBOUNDED, Value};
use tokens::{BToken, ProcessCount, Shift, UbToken};

// The next token of a machine, with this pivot and these read cells: refusals 2, then 5. (The cells by value: a public
// signature.)
#[tactic(auto, using(std::proofs::lemmas::Int::ints, crate::proofs::Answers::count_ok_lem), unfolding(crate::specs::Answers::next_of, crate::specs::Tokens::next_token, crate::specs::Tokens::next_ub))]
pub fn next_token(algorithm: u8, n: u8, pivot: Value, cells: [i32; SLOTS]) -> Result<Value, Refusal>
    ensures { result ≡ next_of algorithm n pivot.0 cells }
{
    let count = ProcessCount::new(n).ok_or(Refusal::BadProcessCount)?;
    if algorithm == UNBOUNDED {
        let most = UbToken::largest(UbToken(pivot.0), &cells);
        let next = most.next().ok_or(Refusal::AboveTokenLimit)?;
        return Ok(Value(next.0));
    }
    let shift = Shift {
        count,
        pivot: BToken(pivot.0),
    };
    Ok(Value(shift.next(&cells).0))
}

// Whether process i goes before process j on a machine, by the token of each.
#[tactic(auto, using(std::proofs::lemmas::Int::ints, crate::proofs::Answers::count_ok_lem), unfolding(crate::specs::Answers::before_of, crate::specs::Tokens::goes_before))]
pub fn goes_before(algorithm: u8, n: u8, i: u8, own: Value, j: u8, its: Value) -> bool
    ensures { result ≡ before_of algorithm n i own.0 j its.0 }
{
    let Some(count) = ProcessCount::new(n) else {
        return false;
    };
    if algorithm == UNBOUNDED {
        return UbToken(own.0).goes_before(i, UbToken(its.0), j);
    }
    BToken(own.0).goes_before(count, i, BToken(its.0), j)
}
