// The entry lister of document 01 as a function: the bytes of its standard input to the bytes of its text.
#![tactic(auto)]

mod text;

ghost use Rattle.std.specs.Prelude.{◌≡◌, true, ◌≤◌, length};
ghost use Rattle.std.proofs.lemmas.List.Edits.{sets};
ghost use Rattle.laws.specs.Lent.{Written};
ghost use Rattle.fields.specs.Numbers.{schedule_limit};
ghost use Rattle.table.specs.WellFormed.{well_formed};
ghost use Rattle.machine.specs.Run.{course_of};
ghost use Rattle.listing.specs.Listing.{refused_line, bakery_line, entry_line, entry_lines, counts_line, report, listing_of};
ghost use Rattle.listing.specs.Room.{room};
ghost use Rattle.listing.specs.Writer.{HasRoom, Writes};

use fields::{Refusal, SCHEDULE_LIMIT};
use machine::Ran;
use table::Table;
use text::Writer;

// The longest line of an entry: a word of six bytes, the three digits of a byte at most, and the line feed.
const ENTRY_ROOM: usize = 10;

// The first and the last line together: words of less than fifty bytes, and seven numbers of twenty digits at most.
const REST_ROOM: usize = 200;

// Room for the longest text: a line for each byte of the schedule, and the rest.
pub const LISTING_ROOM: usize = SCHEDULE_LIMIT * ENTRY_ROOM + REST_ROOM;

// `bakery A n`
#[tactic(auto, unfolding(crate::specs::Listing::bakery_line, crate::specs::Text::numbered_line, crate::specs::Text::numbered, crate::specs::Text::ascii))]
fn put_bakery(out: &mut Writer<'_>, algorithm: u8, n: u8)
    requires { HasRoom out.old (bakery_line algorithm n) }
    ensures { Writes out.old (bakery_line algorithm n) out.new }
{
    out.put_number(b"bakery ", usize::from(algorithm));
    out.put_line(b" ", usize::from(n));
}

// `entry P`
#[tactic(auto, unfolding(crate::specs::Listing::entry_line, crate::specs::Text::numbered_line, crate::specs::Text::numbered, crate::specs::Text::ascii))]
fn put_entry(out: &mut Writer<'_>, process: u8)
    requires { HasRoom out.old (entry_line process) }
    ensures { Writes out.old (entry_line process) out.new }
{
    out.put_line(b"entry ", usize::from(process));
}

// One line for each entry, in order.
fn put_entries(out: &mut Writer<'_>, entries: &[u8])
    requires { HasRoom out.old (entry_lines entries.now) }
    ensures { Writes out.old (entry_lines entries.now) out.new }
{
    for &process in entries {
        put_entry(out, process);
    }
}

// The counts and the stop number.
#[tactic(auto, unfolding(crate::specs::Listing::counts_line, crate::specs::Text::numbered_line, crate::specs::Text::numbered, crate::specs::Text::ascii))]
fn put_counts(out: &mut Writer<'_>, r: Ran)
    requires { HasRoom out.old (counts_line r) }
    ensures { Writes out.old (counts_line r) out.new }
{
    out.put_number(b"moved ", r.moved);
    out.put_number(b" waited ", r.waited);
    out.put_number(b" entries ", r.entries);
    out.put_number(b" waiting ", r.waiting);
    out.put_line(b" stop ", usize::from(fields::stop_number(r.stop)));
}

// `refused N` alone.
fn put_refused(text: &mut [u8; LISTING_ROOM], refusal: Refusal) -> usize
    ensures written { Written text.old 0 (refused_line (Some refusal)) text.new result }
    ensures fits { result ≤ room }
{
    let mut out = Writer::new(text);
    out.put_line(b"refused ", usize::from(refusal.number()));
    out.finish()
}

// The text of a run from a fresh table.
fn put_report(text: &mut [u8; LISTING_ROOM], t: Table, schedule: &[u8]) -> usize
    requires well_formed { well_formed t ≡ true }
    requires short { length schedule.now ≤ schedule_limit }
    ensures written { Written text.old 0 (report t (course_of t schedule.now)) text.new result }
    ensures fits { result ≤ room }
{
    let mut entries = [0; SCHEDULE_LIMIT];
    let r = machine::run(t, schedule, &mut entries);
    let mut out = Writer::new(text);
    put_bakery(&mut out, t.algorithm, t.n);
    put_entries(&mut out, &entries[..r.entries]);
    put_counts(&mut out, r);
    out.finish()
}

// The algorithm byte and the n byte, which every input has.
const SHORTEST: usize = 2;

// What the lister prints for its input, at the front of the text, whose other bytes keep their values. Answers how long it is.
pub fn list(input: &[u8], text: &mut [u8; LISTING_ROOM]) -> usize
    ensures value { (result ≡ length (listing_of input.now)) × (result ≤ room) }
    ensures text_after { text.new ≡ sets text.old 0 (listing_of input.now) }
{
    if input.len() < SHORTEST {
        return put_refused(text, Refusal::FormTooShort);
    }
    let started = table::fresh(input[0], input[1]);
    if let Some(refusal) = started.stop {
        return put_refused(text, refusal);
    }
    let schedule = &input[2..];
    if schedule.len() > SCHEDULE_LIMIT {
        return put_refused(text, Refusal::ScheduleTooLong);
    }
    put_report(text, started.table, schedule)
}
