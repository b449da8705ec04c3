// Worked records and plans, and what is proved of them from the definitions alone.
#![tactic(auto)]

ghost use Rattle.std.specs.Prelude.{◌≡◌, ◌≤◌, Decides};
ghost use Rattle.plans.specs.Laws.{LawsOfRecords};
ghost use Rattle.plans.specs.Orders.{LawsOfPlans};
ghost use Rattle.plans.specs.Plan.{task_count};
ghost use Rattle.plans.specs.Terms.{RecordOf};
ghost use Rattle.worked.specs.Orders.{circled};
ghost use Rattle.worked.specs.Records.{pipelined};
ghost use Rattle.worked.specs.Worked.{WorkedExamples};

use plans::{Packed, Source};

// Tasks cc and ld run from 1 to 3; ld at p waits for cc at p, and cc at p + 2 for ld at p.
pub fn pipeline() -> [u8; 21]
    ensures value { result ≡ pipelined }
    ensures worked { WorkedExamples }
{
    *b"\x10\x81\x10\x10\x31\x01\x03\x02\x10\x00\x08\x60\x00\x10\x80\x02cc\x02ld"
}

// Tasks a and b have no parameters; finish a goes to start b, and finish b to start a.
pub fn circle() -> [u8; 10]
    ensures { result ≡ circled }
{
    *b"\x10\x81\x00\x08\x41\x80\x01a\x01b"
}

// How many tasks a source has, whatever it is: its plan keeps the rules, so they are 64 at most. A caller behind a pointer knows that too.
pub fn few_tasks(source: &dyn Source) -> usize
    ensures value { result ≡ task_count (plan source.now) }
    ensures few { result ≤ 64 }
{
    source.task_count()
}

// Whether bytes describe a restricted parametrized partial order: whoever unpacks them knows that of a refusal too, with no check beside it.
pub fn described(bytes: &[u8]) -> bool
    ensures decided { Decides result (RecordOf bytes.now) }
    ensures records { LawsOfRecords }
    ensures plans { LawsOfPlans }
{
    match Packed::try_from(bytes) {
        Ok(_) => true,
        Err(_) => false,
    }
}
