// Sets of tasks, of which no plan has more than 64.
ghost use Rattle.std.specs.Prelude.{◌≡◌, ℕ, ◌<◌, true, false, not, ◌&&◌, ◌||◌, nat_eq};
ghost use Rattle.runs.specs.TaskSets.{has as has_task};

// A set of tasks, a bit for each. Its methods require a task below 64, as every plan has it: total ones would test what callers know.
#[derive(Clone, Copy)]
pub(crate) struct TaskSet {
    bits: u64,
}

impl TaskSet {
    // No task.
    pub(crate) fn none() -> TaskSet
        ensures { (t : ℕ) → has_task result t ≡ false }
    {
        TaskSet { bits: 0 }
    }

    // Every task.
    pub(crate) fn all() -> TaskSet
        ensures { (t : ℕ) → t < 64 → has_task result t ≡ true }
    {
        TaskSet { bits: u64::MAX }
    }

    // Whether a task is in the set.
    pub(crate) fn has(self, task: usize) -> bool
        requires { task < 64 }
        ensures { result ≡ has_task self task }
    {
        (self.bits >> task) % 2 == 1
    }

    // The task comes in.
    pub(crate) fn add(&mut self, task: usize)
        requires { task < 64 }
        ensures { (t : ℕ) → has_task self.new t ≡ (nat_eq t task || has_task self.old t) }
    {
        self.bits |= 1u64 << task;
    }

    // The task goes out.
    pub(crate) fn remove(&mut self, task: usize)
        requires { task < 64 }
        ensures { (t : ℕ) → t < 64 → has_task self.new t ≡ (not (nat_eq t task) && has_task self.old t) }
    {
        self.bits &= !(1u64 << task);
    }

    // The tasks of another set come in.
    pub(crate) fn join(&mut self, other: TaskSet)
        ensures { (t : ℕ) → has_task self.new t ≡ (has_task other t || has_task self.old t) }
    {
        self.bits |= other.bits;
    }
}
