// The round trips of the stored form at the calls themselves: a table written and read back, and a form read and written again.
ghost use Rattle.std.specs.Prelude.{◌≡◌};
ghost use Rattle.stored.specs.Writing.{buffer_of};
ghost use Rattle.cases.specs.RoundTrips.{written_and_read, SameBytes};

use stored::{Restored, Wrote};
use table::Table;

// Writes a table, and reads the bytes that the write answers to have written: none where it is refused.
#[tactic(auto, using(stored::proofs::WriteAnswers::written_within, std::proofs::lemmas::Grind::common_steps))]
pub(crate) fn written_and_read(t: Table, lent: &mut [u8]) -> Restored
    ensures value { result ≡ written_and_read t lent.old }
    ensures lent_after { lent.new ≡ buffer_of t lent.old }
{
    let w = stored::write(t, lent);
    let written = w.length;
    stored::read(&lent[..written])
}

// Reads a form, and writes the table that the read answers.
#[tactic(auto, using(demands::proofs::RoundTrips::read_and_written))]
pub(crate) fn read_and_written(form: &[u8], lent: &mut [u8]) -> Wrote
    ensures { SameBytes form.now lent.old result lent.new }
{
    let r = stored::read(form);
    stored::write(r.table, lent)
}
