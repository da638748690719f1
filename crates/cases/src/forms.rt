// The cases of the stored form: a form that is read, and a table that is written.
use crate::lent::{part, put_lent, untouched};
use crate::printing::put_table;
use crate::reading::Cases;
use crate::round_trips::{read_and_written, written_and_read};
use fields::stop_number;
use std::io;
use std::io::{Read, Write};
use stored::Restored;

fn put_restored(output: &mut impl Write, restored: &Restored) -> io::Result<()> {
    writeln!(
        output,
        "stop {} place {}",
        stop_number(restored.stop),
        restored.place
    )?;
    put_table(output, &restored.table)
}

// A form read and written again, to a buffer that is as long: how many of its bytes are written as they were, all or none.
fn put_again(output: &mut impl Write, form: &[u8]) -> io::Result<()> {
    let mut buffer = untouched();
    let lent = part(&mut buffer, form.len());
    read_and_written(form, lent);
    let same = if *lent == *form { form.len() } else { 0 };
    writeln!(output, "again {same} of {}", form.len())
}

pub(crate) fn put_read(cases: &mut Cases<impl Read, impl Write>) -> io::Result<()> {
    let mut space = [0; 65536];
    let form = cases.next_piece(&mut space)?;
    let restored = stored::read(form);
    put_restored(cases.output, &restored)?;
    if restored.stop.is_none() {
        put_again(cases.output, form)?;
    }
    Ok(())
}

pub(crate) fn put_write(cases: &mut Cases<impl Read, impl Write>) -> io::Result<()> {
    let table = cases.next_table()?;
    let mut buffer = untouched();
    let lent = part(&mut buffer, cases.next_length()?);
    let wrote = stored::write(table, lent);
    writeln!(
        cases.output,
        "length {} stop {}",
        wrote.length,
        stop_number(wrote.stop)
    )?;
    write!(cases.output, "bytes")?;
    put_lent(cases.output, lent, wrote.length)?;
    put_restored(cases.output, &written_and_read(table, lent))
}
