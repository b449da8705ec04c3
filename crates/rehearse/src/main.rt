// Rehearses the plan in plan.bin: performs a short list of calls on a run, and tells each call with its answer.
#![tactic(auto)]

use planfile::{name, plan_bytes};
use plans::{Event, Packed, Side, Source};
use runs::{Answer, Call, List, Outcome, Phase, Refusal, replay};
use std::io;

// More events than any packed plan has.
const BUDGET: u32 = 8_388_608;

// The values of a task's word, each after a space.
fn tell_values(rt: &impl Print, plan: &Packed, task: usize, values: &[u8]) -> io::Result<()> {
    if let Some(params) = plan.params(task) {
        for value in values.iter().take(params.used) {
            print!(rt; " {value}")?;
        }
    }
    println!(rt; "")
}

// An event, as `start cc 0 0 1`.
fn tell_event(rt: &impl Print, plan: &Packed, event: Event) -> io::Result<()> {
    let side = event.side;
    let name = name(plan, event.task);
    print!(rt; "{side} {name}")?;
    tell_values(rt, plan, event.task, &event.word.to_be_bytes())
}

// The rows of a state table, as `cc waiting at 0 0 1`.
fn tell_table(rt: &impl Print, plan: &Packed, bytes: &[u8]) -> io::Result<()> {
    for (task, row) in bytes.chunks(5).take(plan.task_count()).enumerate() {
        let [values @ .., byte] = row else { continue };
        if let Ok(phase) = Phase::try_from(*byte) {
            let name = name(plan, task);
            print!(rt; "  {name} {phase} at")?;
            tell_values(rt, plan, task, values)?;
        }
    }
    Ok(())
}

// What is asked in a call.
fn tell_call(rt: &impl Print, plan: &Packed, call: Call) -> io::Result<()> {
    match call {
        Call::Post(event) => {
            print!(rt; "post ")?;
            tell_event(rt, plan, event)
        }
        Call::TakeBack(event) => {
            print!(rt; "take back ")?;
            tell_event(rt, plan, event)
        }
        Call::ReadyList(_) => println!(rt; "ready"),
        Call::StateTable(_) => println!(rt; "table"),
        Call::Verdict(_) => println!(rt; "verdict"),
    }
}

// What it is answered with.
fn tell_answer(rt: &impl Print, plan: &Packed, answer: Result<Answer, Refusal>) -> io::Result<()> {
    match answer {
        Ok(Answer::Accepted) => println!(rt; "  ok"),
        Ok(Answer::Listed(found)) => {
            for event in found.items() {
                print!(rt; "  ")?;
                tell_event(rt, plan, *event)?;
            }
            Ok(())
        }
        Ok(Answer::Filled(table)) => tell_table(rt, plan, table.items()),
        Ok(Answer::Played(Outcome::Finishes(count))) => println!(rt; "  finishes {count}"),
        Ok(Answer::Played(Outcome::DeadEnd(count))) => println!(rt; "  dead end {count}"),
        Err(refusal) => {
            let number = refusal.number();
            println!(rt; "  no {number}")
        }
    }
}

// The calls: the first repetition of the first task, with looks before and after, and then it is taken back.
fn calls(plan: &Packed) -> [Call; 9] {
    let word = plan.word_at(0, 0).unwrap_or(0);
    let event = |side| Event {
        task: 0,
        side,
        word,
    };
    let start = event(Side::Start);
    let finish = event(Side::Finish);
    [
        Call::Verdict(BUDGET),
        Call::ReadyList(64),
        Call::Post(start),
        Call::Post(finish),
        Call::ReadyList(64),
        Call::StateTable(320),
        Call::TakeBack(start),
        Call::TakeBack(finish),
        Call::Verdict(BUDGET),
    ]
}

fn main(rt: HostRuntime) -> anyhow::Result<()> {
    let bytes = plan_bytes(&rt)?;
    let plan = Packed::new(&bytes);
    let calls = calls(&plan);
    let mut room = [Ok(Answer::Accepted); 9];
    let mut answers = List::new(&mut room);
    let _ = replay(plan, &calls, &mut answers);
    for (call, answer) in calls.iter().zip(answers.items()) {
        tell_call(&rt, &plan, *call)?;
        tell_answer(&rt, &plan, *answer)?;
    }
    Ok(())
}
