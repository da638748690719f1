// Numbers of four bytes, read from a form at a place: the place is what is asked for, and no state.
ghost use Rattle.std.specs.Prelude.{◌≡◌, ◌+◌, ◌≤◌, length};
ghost use Rattle.stored.specs.Fields.{number_at};

use fields::Value;

#[tactic(auto, using(crate::proofs::Numbers::number_from))]
pub(crate) fn number_at(form: &[u8], at: usize) -> Value
    requires { at + 4 ≤ length form.now }
    ensures { result.0 ≡ number_at form.now at }
{
    Value(i32::from_le_bytes([form[at], form[at + 1], form[at + 2], form[at + 3]]))
}
