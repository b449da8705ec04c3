// Reads the tasks and the links of a record.
ghost use Rattle.std.specs.Prelude.{◌≡◌, ◌<◌, ◌≤◌, length};
ghost use Rattle.plans.specs.Reads.{ReadsAs, times};
ghost use Rattle.plans.specs.Layout.{task, link, task_of};
ghost use Rattle.plans.specs.Decoded.{tasks_of};

use crate::ends::Ends;
use crate::fault::{Fault, Kind};
use crate::read::{Part, fill_row, read_row};
use crate::room::Row;
use crate::rule::Rule;
use crate::shapes::{Link, Params};
use crate::tasks::Tasks;
use bits::Reader;

// So many tasks.
pub(crate) fn read_tasks(reader: &mut Reader, count: usize) -> Result<Tasks, Fault>
    requires { count ≤ 32 }
    ensures { ReadsAs tasks_of (λ bs. times count (task bs)) reader.old result reader.new }
{
    let mut each = Row::first([Params::NONE; 32], 0);
    fill_row(reader, &(), count, &mut each)?;
    Ok(Tasks { each })
}

impl Tasks {
    // How many parameters a task uses.
    fn used_by(&self, task: usize) -> usize
        requires { task < length (tasks_of self.now) }
        ensures value { result ≡ (task_of (tasks_of self.now) task).used }
        ensures bound { result ≤ 4 }
    {
        self.each.items()[task].used
    }
}

impl Part<Tasks> for Link {
    ghost reads = { λ tasks bs. link bs (tasks_of tasks) };

    fn read(reader: &mut Reader, tasks: &Tasks) -> Result<Link, Fault> {
        let begins = reader.place();
        let ends = Ends::read(reader, &())?;
        let from = ends.from.task;
        let to = ends.to.task;
        let count = tasks.each.items().len();
        if from >= count || to >= count || from == to {
            return Err(Kind::Ends.at(begins));
        }
        let sources = tasks.used_by(from);
        let targets = tasks.used_by(to);
        let row: Row<Rule, 4> = read_row(reader, &sources, targets, Rule::NONE)?;
        let rules = row.room;
        Ok(Link {
            ends,
            rules,
            begins,
        })
    }
}
