// Reads a whole record.
ghost use Rattle.std.specs.Prelude.{◌≤◌, IfOk};
ghost use Rattle.plans.specs.Reads.{Gives, Reads, ReadsAs};
ghost use Rattle.plans.specs.Layout.{counts, body, fields};
ghost use Rattle.plans.specs.Decoded.{shown};

use crate::fault::{Fault, Kind};
use crate::links::read_tasks;
use crate::parts::read_padding;
use crate::read::fill_row;
use crate::record::Record;
use crate::room::Row;
use crate::shapes::{Counts, Link, Name};
use bits::Reader;

// The form, and how many tasks and links there are.
fn read_counts(reader: &mut Reader) -> Result<Counts, Fault>
    ensures value { Reads counts reader.old result reader.new }
    ensures bound { IfOk result (λ n. (n.tasks ≤ 32) × (n.links ≤ 64)) }
{
    let at = reader.place();
    if reader.read(4)? != 1 {
        return Err(Kind::Form.at(at));
    }
    let at = reader.place();
    let tasks = reader.read(6)?;
    if tasks < 1 || tasks > 32 {
        return Err(Kind::Counts.at(at));
    }
    let at = reader.place();
    let links = reader.read(7)?;
    if links > 64 {
        return Err(Kind::Counts.at(at));
    }
    Ok(Counts {
        tasks: tasks as usize,
        links: links as usize,
    })
}

// The tasks, the links and the names.
fn read_body(reader: &mut Reader, counts: Counts) -> Result<Record, Fault>
    requires { (counts.tasks ≤ 32) × (counts.links ≤ 64) }
    ensures { ReadsAs shown (λ bs. body bs counts) reader.old result reader.new }
{
    let tasks = read_tasks(reader, counts.tasks)?;
    let mut links = Row::first([Link::NONE; 64], 0);
    fill_row(reader, &tasks, counts.links, &mut links)?;
    read_padding(reader)?;
    let mut names = Row::first([Name::NONE; 32], 0);
    fill_row(reader, &(), counts.tasks, &mut names)?;
    Ok(Record {
        tasks,
        links,
        names,
    })
}

// The parts of a record, or the first field that is at fault.
pub(crate) fn read_record(bytes: &[u8]) -> Result<Record, Fault>
    ensures { Gives shown (fields bytes.now) result }
{
    let mut reader = Reader::new(bytes);
    let counts = read_counts(&mut reader)?;
    let record = read_body(&mut reader, counts)?;
    let end = reader.place();
    if end != 8 * bytes.len() as u128 {
        return Err(Kind::Text.at(end));
    }
    Ok(record)
}
