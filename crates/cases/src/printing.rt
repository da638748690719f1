// Tables on the output.
use fields::{NONE, SLOTS};
use std::io;
use std::io::Write;
use table::{Core, Row, Table};

// A row as in a fresh table.
const FRESH: Row = Row {
    core: Core {
        line: 1,
        index: 0,
        choosing: 0,
        token: NONE,
        pivot: NONE,
    },
    cells: [NONE; SLOTS],
};

// A line for the row of a process: its fields, a bar, and its cells.
fn put_row(output: &mut impl Write, process: usize, row: &Row) -> io::Result<()> {
    let core = row.core;
    write!(
        output,
        "\nrow {process}: {} {} {} {} {} |",
        core.line, core.index, core.choosing, core.token, core.pivot,
    )?;
    for cell in &row.cells {
        write!(output, " {cell}")?;
    }
    Ok(())
}

// A table, with a line for each row that is not fresh.
pub(crate) fn put_table(output: &mut impl Write, table: &Table) -> io::Result<()> {
    write!(
        output,
        "table {} {} x {}",
        table.algorithm, table.n, table.x
    )?;
    for (k, row) in table.rows.iter().enumerate() {
        if *row != FRESH {
            put_row(output, k + 1, row)?;
        }
    }
    writeln!(output)
}
