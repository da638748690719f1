// One step of a table: a run of one byte, so that a row is taken out, changed and put back in one place.
ghost use Rattle.std.specs.Prelude.{◌≡◌};
ghost use Rattle.machine.specs.Step.{refused_step, step_of};

use crate::Stepped;
use crate::running::course;
use fields::Refusal;
use table::Table;

// A table that is not well formed is given back.
fn refused(t: Table, refusal: Refusal) -> Stepped
    ensures { result ≡ refused_step t (Some refusal) }
{
    Stepped {
        table: t,
        mark: 0,
        stop: Some(refusal),
    }
}

// One step of a process: refusals 3, 4, 5. (`as`: of one byte none or one moved, which the check proves to fit.)
pub fn step(t: Table, process: u8) -> Stepped
    ensures { result ≡ step_of t process }
{
    if !table::well_formed(t) {
        return refused(t, Refusal::NotWellFormed);
    }
    let mut entries = [0];
    let r = course(t, &[process], &mut entries);
    Stepped {
        table: r.table,
        mark: r.moved as u8,
        stop: r.stop,
    }
}
