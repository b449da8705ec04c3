// Where the links of a plan lead, asked once before its events are played, and how far they let a task's events be posted.
ghost use Rattle.std.specs.Prelude.{◌≡◌, ◌<◌, ◌≤◌, min, unwrap_or};
ghost use Rattle.plans.specs.Plan.{task_count, link_count};
ghost use Rattle.plans.specs.declared.ends.Side.{Side};
ghost use Rattle.runs.specs.Order.{event_type};
ghost use Rattle.runs.specs.Limit.{link_bound, limit, by_side, lowered};
ghost use Rattle.runs.specs.Routes.{Routed};

use crate::checks::View;
use crate::task_set::TaskSet;
use plans::{EventType, Side, Source};

// The links of one task: the last one that leads to it, and the tasks that links lead to from it.
#[derive(Clone, Copy)]
pub(crate) struct TaskLinks {
    pub(crate) last: Option<u16>,
    pub(crate) next: TaskSet,
}

// The links of each task, and before each link the last one that leads to the same task. Its memory is fixed, since playing cannot
// fail for want of it: so the links of a task are a chain of numbers.
#[derive(Clone, Copy)]
pub(crate) struct Routes {
    pub(crate) tasks: [TaskLinks; 64],
    pub(crate) before: [Option<u16>; 4096],
}

// The places from which on some link holds back a task's starts and its finishes.
#[derive(Clone, Copy)]
pub(crate) struct Limits {
    pub(crate) start: u32,
    pub(crate) finish: u32,
}

impl Limits {
    // The limit of a side.
    pub(crate) fn of(self, side: Side) -> u32
        ensures { result ≡ by_side side self }
    {
        match side {
            Side::Start => self.start,
            Side::Finish => self.finish,
        }
    }

    // The limit of a side, where it is above a place, comes down to it.
    fn lower(&mut self, side: Side, place: u32)
        ensures { self.new ≡ lowered side place self.old }
    {
        match side {
            Side::Start => self.start = self.start.min(place),
            Side::Finish => self.finish = self.finish.min(place),
        }
    }
}

// The routes of a source.
pub(crate) fn routes_of<S: Source>(source: &S) -> Routes
    ensures { Routed (S.plan source.now) (link_count (S.plan source.now)) result }
{
    let alone = TaskLinks {
        last: None,
        next: TaskSet::none(),
    };
    let mut routes = Routes {
        tasks: [alone; 64],
        before: [None; 4096],
    };
    // by number, as a source is asked
    for link in 0..source.link_count() {
        let Some(ends) = source.ends(link) else {
            continue;
        };
        routes.before[link] = routes.tasks[ends.to.task].last;
        routes.tasks[ends.to.task].last = Some(link as u16);
        routes.tasks[ends.from.task].next.add(ends.to.task);
    }
    routes
}

impl<S: Source> View<'_, S> {
    // The limits of a task, lowered to where a link holds back the events of one side.
    fn lowered_by(&self, task: usize, link: usize, mut limits: Limits) -> Limits
        requires { (s : Side) → by_side s limits ≤ 65536 }
        ensures { (s : Side) → by_side s result ≡ min (by_side s limits) (unwrap_or (link_bound (S.plan self.now.source.now) self.now.table.now.slots (event_type task s) link) 65536) }
    {
        let Some(ends) = self.source.ends(link) else {
            return limits;
        };
        let side = ends.to.side;
        let place = self.bound(EventType { task, side }, link).unwrap_or(65536);
        limits.lower(side, place);
        limits
    }

    // The limits of a task, in one pass over the links that lead to it.
    pub(crate) fn limits(&self, routes: &Routes, task: usize) -> Limits
        requires known { task < task_count (S.plan self.now.source.now) }
        requires routed { Routed (S.plan self.now.source.now) (link_count (S.plan self.now.source.now)) routes.now }
        ensures { (s : Side) → by_side s result ≡ limit (S.plan self.now.source.now) self.now.table.now.slots (event_type task s) (link_count (S.plan self.now.source.now)) }
    {
        // No list of words has more places than these.
        let mut limits = Limits {
            start: 65536,
            finish: 65536,
        };
        // Each link names the one before it: an iterator would need that order as an invariant of its own, and is no shorter.
        let mut at = routes.tasks[task].last;
        while let Some(link) = at {
            let link = link as usize;
            limits = self.lowered_by(task, link, limits);
            at = routes.before[link];
        }
        limits
    }
}
