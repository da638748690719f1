// Runs the cases of the data files that its arguments name, and prints under each case's name what the library answers.
// What it must print comes from a second machine, tests/bakery.py; tests/write_cases.py has the format of the files.
#![tactic(auto)]

mod answers;
mod forms;
mod lent;
mod printing;
mod reading;
mod round_trips;

use reading::Cases;
use std::env::{Env, FillError};
use std::fs::File;
use std::io::{Read, Write};
use std::rt::Files;
use std::{io, str};

// The answer to a case by its kind, a letter. Each letter stands once, beside its call: an enum of the kinds would need a second match.
fn put_answer(cases: &mut Cases<impl Read, impl Write>) -> io::Result<()> {
    match cases.next_byte()? {
        b'F' => answers::put_fresh(cases),
        b'S' => answers::put_step(cases),
        b'R' => answers::put_run(cases),
        b'D' => forms::put_read(cases),
        b'W' => forms::put_write(cases),
        _ => cases.put_not_a_case(),
    }
}

// The line above a case's answer.
fn put_heading(cases: &mut Cases<impl Read, impl Write>) -> io::Result<()> {
    let mut space = [0; 4096];
    let heading = cases.next_piece(&mut space)?;
    cases.output.write_all(heading)
}

// The cases of a data file, which opens with their number. (Here the file and the output become one.)
fn put_cases(file: &mut impl Read, output: &mut impl Write) -> io::Result<()> {
    let mut cases = Cases { file, output };
    for _ in 0..cases.next_length()? {
        put_heading(&mut cases)?;
        put_answer(&mut cases)?;
    }
    Ok(())
}

// The data file that argument i names. Of one that is not there nothing can be read. std takes a name as text, so an argument that is none,
// or is too long, names no file.
fn put_argument(rt: &(impl Files + Env), i: usize, output: &mut impl Write) -> io::Result<()> {
    let mut name = [0; 4096];
    let length = rt.arg(i, &mut name).unwrap_or(0);
    let text = str::from_utf8(&name[..length]).unwrap_or("");
    match File::open(rt, text) {
        Ok(mut file) => put_cases(&mut file, output),
        Err(_) => put_cases(&mut io::empty(), output),
    }
}

// Whether there is an argument i.
fn is_given(rt: &impl Env, i: usize) -> bool {
    !matches!(rt.arg(i, &mut [0; 1]), Err(FillError::NotPresent))
}

fn main(rt: HostRuntime) -> io::Result<()> {
    let mut output = io::writer(&rt);
    for i in (1..usize::MAX).take_while(|&i| is_given(&rt, i)) {
        put_argument(&rt, i, &mut output)?;
    }
    Ok(())
}
