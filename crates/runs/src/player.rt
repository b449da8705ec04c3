// Playing on in a table.
ghost use Rattle.std.specs.Prelude.{◌≡◌, ◌<◌, ◌≤◌, None, true};
ghost use Rattle.plans.specs.Plan.{task_count, link_count};
ghost use Rattle.runs.specs.Limit.{next_below};
ghost use Rattle.runs.specs.Routes.{Routed, Rested};
ghost use Rattle.runs.specs.Slots.{ready_of, slot_of};
ghost use Rattle.runs.specs.TaskSets.{has as has_task};
ghost use Rattle.runs.specs.Play.{Played, counted, Stuck};

use crate::checks::View;
use crate::refusal::Refusal;
use crate::routes::{Limits, Routes, routes_of};
use crate::table::Table;
use crate::task_set::TaskSet;
use plans::{Event, Side, Source};

// Plays a source's remaining events in a table, within a budget.
#[derive(Drop)]
pub(crate) struct Player<'a, S: Source> {
    source: &'a S,
    table: &'a mut Table,
    routes: &'a Routes,
    // the tasks that are to be looked at
    due: TaskSet,
    // how many events were posted
    count: u32,
    budget: u32,
    ghost routed: { Routed (S.plan source.now) (link_count (S.plan source.now)) routes.now },
    ghost rested: { Rested (S.plan source.now) table.now.slots due },
    ghost within: { count ≤ budget },
}

// The event to come of a task, where the place of its word is below the limit of its side.
fn next_below(table: &Table, task: usize, place: u32, limits: Limits) -> Option<Event>
    requires { task < 64 }
    ensures { result ≡ next_below task (slot_of table.now.slots task) place limits }
{
    table.slots[task]
        .event(task)
        .filter(|event| place < limits.of(event.side))
}

// What a method leaves alone is one clause in each: a definition of it would have to stand apart from the player, in two more files.
impl<S: Source> Player<'_, S> {
    // Posts the events of a task while one is ready.
    fn play_task(&mut self, task: usize) -> Result<(), Refusal>
        requires known { task < task_count (S.plan self.old.source.now) }
        requires due { has_task self.old.due task ≡ true }
        ensures played { Played (S.plan self.old.source.now) self.old.table.now.slots self.old.count self.old.budget self.new.table.now.slots (counted self.new.count result) (λ _. ready_of (S.plan self.old.source.now) self.new.table.now.slots task ≡ None) }
        ensures same { (self.new.source ≡ self.old.source) × (self.new.budget ≡ self.old.budget) × (self.new.table.ghost_name ≡ self.old.table.ghost_name) }
    {
        // The links into a task come from other tasks, so its own events leave its limits as they are.
        let view = View {
            source: self.source,
            table: self.table,
        };
        let limits = view.limits(self.routes, task);
        let Some(mut place) = self.source.place_of(task, self.table.slots[task].word) else {
            return Ok(());
        };
        while let Some(event) = next_below(self.table, task, place, limits) {
            if self.count == self.budget {
                return Err(Refusal::OverBudget);
            }
            self.due.join(self.routes.tasks[task].next);
            self.table.enter(self.source, event);
            place = match event.side {
                Side::Start => place,
                Side::Finish => place + 1,
            };
            self.count += 1;
        }
        Ok(())
    }

    // The turn of a task, if it is to be looked at.
    fn turn(&mut self, task: usize) -> Result<(), Refusal>
        requires { task < task_count (S.plan self.old.source.now) }
        ensures played { Played (S.plan self.old.source.now) self.old.table.now.slots self.old.count self.old.budget self.new.table.now.slots (counted self.new.count result) (λ _. ready_of (S.plan self.old.source.now) self.new.table.now.slots task ≡ None) }
        ensures same { (self.new.source ≡ self.old.source) × (self.new.budget ≡ self.old.budget) × (self.new.table.ghost_name ≡ self.old.table.ghost_name) }
    {
        if self.due.has(task) {
            self.play_task(task)?;
            self.due.remove(task);
        }
        Ok(())
    }

    // One pass over the tasks.
    fn sweep(&mut self) -> Result<(), Refusal>
        ensures played { Played (S.plan self.old.source.now) self.old.table.now.slots self.old.count self.old.budget self.new.table.now.slots (counted self.new.count result) (λ n. n ≡ self.old.count → Stuck (S.plan self.old.source.now) self.new.table.now.slots) }
        ensures same { (self.new.source ≡ self.old.source) × (self.new.budget ≡ self.old.budget) × (self.new.table.ghost_name ≡ self.old.table.ghost_name) }
    {
        // by number, as a source is asked
        for task in 0..self.source.task_count() {
            self.turn(task)?;
        }
        Ok(())
    }
}

// Posts ready events until none is ready, and counts them; refuses where they are more than the budget.
pub(crate) fn play<S: Source>(source: &S, table: &mut Table, budget: u32) -> Result<u32, Refusal>
    ensures { Played (S.plan source.now) table.old.slots 0 budget table.new.slots result (λ _. Stuck (S.plan source.now) table.new.slots) }
{
    let routes = routes_of(source);
    let mut player = Player {
        source,
        table,
        routes: &routes,
        due: TaskSet::all(),
        count: 0,
        budget,
    };
    loop {
        let before = player.count;
        player.sweep()?;
        if player.count == before {
            return Ok(before);
        }
    }
}
