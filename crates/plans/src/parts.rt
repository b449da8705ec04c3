// Reads the parts of a packed record.
ghost use Rattle.plans.specs.Reads.{Reads};
ghost use Rattle.plans.specs.Layout.{param, task, rule, event_type, ends, padding, letter, name};

use crate::ends::{Ends, EventType, Side};
use crate::fault::{Fault, Kind};
use crate::param::Param;
use crate::read::{Part, read_row};
use crate::room::Row;
use crate::rule::Rule;
use crate::shapes::{Letter, Name, Params};
use crate::task::product;
use bits::Reader;

impl Part<()> for Param {
    ghost reads = { λ _ bs. param bs };

    fn read(reader: &mut Reader, known: &()) -> Result<Param, Fault> {
        let low = reader.read(8)?;
        let at = reader.place();
        let high = reader.read(8)?;
        if low > high {
            return Err(Kind::Params.at(at));
        }
        let down = reader.read(1)?;
        Ok(Param {
            low: low as u8,
            high: high as u8,
            down: down == 1,
        })
    }
}

impl Part<()> for Params {
    ghost reads = { λ _ bs. task bs };

    fn read(reader: &mut Reader, known: &()) -> Result<Params, Fault> {
        let at = reader.place();
        let used = reader.read(3)?;
        if used > 4 {
            return Err(Kind::Params.at(at));
        }
        let used = used as usize;
        let row: Row<Param, 4> = read_row(reader, known, used, Param::NONE)?;
        let each = row.room;
        if product(&each) > 65536 {
            return Err(Kind::Words.at(at));
        }
        Ok(Params { each, used })
    }
}

// The rule for one parameter of a target, where the from task has `sources` parameters.
impl Part<usize> for Rule {
    ghost reads = { λ sources bs. rule bs sources };

    fn read(reader: &mut Reader, sources: &usize) -> Result<Rule, Fault> {
        let at = reader.place();
        let pick = reader.read(3)?;
        if pick as usize >= *sources && pick != 4 {
            return Err(Kind::Rule.at(at));
        }
        let add = reader.read(9)? as i16;
        let at = reader.place();
        let divisor = reader.read(4)?;
        if divisor == 0 {
            return Err(Kind::Rule.at(at));
        }
        Ok(Rule {
            pick: (pick != 4).then_some(pick as u8),
            add: if add < 256 { add } else { add - 512 },
            divisor: divisor as u8,
        })
    }
}

impl Part<()> for EventType {
    ghost reads = { λ _ bs. event_type bs };

    fn read(reader: &mut Reader, known: &()) -> Result<EventType, Fault> {
        let task = reader.read(5)? as usize;
        let side = Side::from(reader.read(1)? == 1);
        Ok(EventType { task, side })
    }
}

impl Part<()> for Ends {
    ghost reads = { λ _ bs. ends bs };

    fn read(reader: &mut Reader, known: &()) -> Result<Ends, Fault> {
        let from = EventType::read(reader, known)?;
        let to = EventType::read(reader, known)?;
        Ok(Ends { from, to })
    }
}

// The zero bits up to the end of a byte.
pub(crate) fn read_padding(reader: &mut Reader) -> Result<(), Fault>
    ensures { Reads padding reader.old result reader.new }
{
    let at = reader.place();
    let width = (8 - at % 8) % 8;
    if reader.read(width as u32)? != 0 {
        return Err(Kind::Text.at(at));
    }
    Ok(())
}

impl Part<()> for Letter {
    ghost reads = { λ _ bs. letter bs };

    fn read(reader: &mut Reader, known: &()) -> Result<Letter, Fault> {
        let at = reader.place();
        let code = reader.read(8)?;
        if code < 33 || code > 126 {
            return Err(Kind::Text.at(at));
        }
        Ok(Letter { code: code as u8 })
    }
}

impl Part<()> for Name {
    ghost reads = { λ _ bs. name bs };

    fn read(reader: &mut Reader, known: &()) -> Result<Name, Fault> {
        let at = reader.place();
        let length = reader.read(8)?;
        if length < 1 || length > 15 {
            return Err(Kind::Text.at(at));
        }
        let begins = reader.place();
        let length = length as usize;
        // the letters are read to be checked: what tells a name is its place
        read_row::<(), Letter, 15>(reader, known, length, Letter::NONE)?;
        Ok(Name {
            at: (begins / 8) as usize,
            length,
        })
    }
}
