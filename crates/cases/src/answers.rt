// A case of each kind but those of the stored form: the call of the library, and its answer.
use crate::lent::{part, put_lent, untouched};
use crate::printing::put_table;
use crate::reading::Cases;
use fields::stop_number;
use std::io;
use std::io::{Read, Write};

pub(crate) fn put_fresh(cases: &mut Cases<impl Read, impl Write>) -> io::Result<()> {
    let algorithm = cases.next_byte()?;
    let started = table::fresh(algorithm, cases.next_byte()?);
    writeln!(cases.output, "stop {}", stop_number(started.stop))?;
    put_table(cases.output, &started.table)
}

pub(crate) fn put_step(cases: &mut Cases<impl Read, impl Write>) -> io::Result<()> {
    let start = cases.next_table()?;
    let stepped = machine::step(start, cases.next_byte()?);
    writeln!(
        cases.output,
        "mark {} stop {}",
        stepped.mark,
        stop_number(stepped.stop)
    )?;
    put_table(cases.output, &stepped.table)
}

pub(crate) fn put_run(cases: &mut Cases<impl Read, impl Write>) -> io::Result<()> {
    let start = cases.next_table()?;
    let mut buffer = untouched();
    let lent = part(&mut buffer, cases.next_length()?);
    let mut space = [0; 65536];
    let schedule = cases.next_piece(&mut space)?;
    let ran = machine::run(start, schedule, lent);
    writeln!(
        cases.output,
        "moved {} waited {} entries {} waiting {} place {} stop {}",
        ran.moved,
        ran.waited,
        ran.entries,
        ran.waiting,
        ran.place,
        stop_number(ran.stop),
    )?;
    write!(cases.output, "entered")?;
    put_lent(cases.output, lent, ran.entries)?;
    put_table(cases.output, &ran.table)
}
