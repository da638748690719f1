// What a data file holds, taken from it piece by piece. A table is there as plain fields and not in the stored form, so that one that is not
// well formed can be a case.
ghost use Rattle.std.specs.Prelude.{◌<◌, IfOk};

use crate::lent::part;
use std::io::{ErrorKind, Read, Write};
use std::{array, io};
use table::{Core, Row, Table};

// The length that two bytes give, the lower one first.
fn length_of(bytes: [u8; 2]) -> usize
    ensures { result < 65536 }
{
    usize::from(u16::from_le_bytes(bytes))
}

// The cases of a data file, and the output for what the library answers to them. Where the file ends too soon the output says so, and what
// is missing counts as zeros.
#[derive(Drop)]
pub(crate) struct Cases<'a, R, W> {
    pub(crate) file: &'a mut R,
    pub(crate) output: &'a mut W,
}

impl<R: Read, W: Write> Cases<'_, R, W> {
    pub(crate) fn put_not_a_case(&mut self) -> io::Result<()> {
        self.output.write_all(b"not a case\n")
    }

    // Fills a piece with the next bytes of the file.
    fn take(&mut self, piece: &mut [u8]) -> io::Result<()> {
        match self.file.read_exact(piece) {
            Err(e) if e.kind() == ErrorKind::UnexpectedEof => self.put_not_a_case(),
            taken => taken,
        }
    }

    pub(crate) fn next_byte(&mut self) -> io::Result<u8> {
        let mut piece = [0];
        self.take(&mut piece)?;
        Ok(piece[0])
    }

    // A number of two bytes. Each is taken by itself, so that each one that is missing is said.
    pub(crate) fn next_length(&mut self) -> io::Result<usize>
        ensures { IfOk result (λ length. length < 65536) }
    {
        let bytes = array::try_from_fn(|_| self.next_byte())?;
        Ok(length_of(bytes))
    }

    // A number of four bytes, the lowest one first. (One function over both lengths leaves open what `try_from_fn` asks of an unknown one.)
    fn next_number(&mut self) -> io::Result<i32> {
        let bytes = array::try_from_fn(|_| self.next_byte())?;
        Ok(i32::from_le_bytes(bytes))
    }

    // Some bytes that have their length before them.
    pub(crate) fn next_piece<'s>(&mut self, space: &'s mut [u8]) -> io::Result<&'s [u8]> {
        let piece = part(space, self.next_length()?);
        self.take(piece)?;
        Ok(piece)
    }

    fn next_core(&mut self) -> io::Result<Core> {
        Ok(Core {
            line: self.next_byte()?,
            index: self.next_byte()?,
            choosing: self.next_byte()?,
            token: self.next_number()?,
            pivot: self.next_number()?,
        })
    }

    fn next_row(&mut self) -> io::Result<Row> {
        Ok(Row {
            core: self.next_core()?,
            cells: array::try_from_fn(|_| self.next_number())?,
        })
    }

    pub(crate) fn next_table(&mut self) -> io::Result<Table> {
        Ok(Table {
            algorithm: self.next_byte()?,
            n: self.next_byte()?,
            x: self.next_number()?,
            rows: array::try_from_fn(|_| self.next_row())?,
        })
    }
}
