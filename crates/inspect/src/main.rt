// Tells what is in plan.bin: the row of its fault, or its tasks and links.
#![tactic(auto)]

mod text;

use planfile::{name, plan_bytes};
use plans::{EventType, Packed, Source};
use std::io;
use text::{End, Range, Value};

// How many events a plan has: two for each word.
fn events(plan: &Packed) -> u64 {
    (0..plan.task_count())
        .filter_map(|task| plan.word_count(task))
        .fold(0, |total: u64, words| {
            total.saturating_add(2 * u64::from(words))
        })
}

// The row of a task, as `task 0 cc: 3 words over 1 to 3`.
fn tell_task(rt: &impl Print, plan: &Packed, task: usize) -> io::Result<()> {
    let name = name(plan, task);
    let words = plan.word_count(task).unwrap_or(0);
    let noun = if words == 1 { "word" } else { "words" };
    print!(rt; "task {task} {name}: {words} {noun}")?;
    if let Some(params) = plan.params(task) {
        for (i, param) in params.each.iter().take(params.used).enumerate() {
            let before = if i == 0 { " over " } else { ", " };
            let range = Range(*param);
            print!(rt; "{before}{range}")?;
        }
    }
    println!(rt; "")
}

// The row of a link, as `link 1: finish ld p0 to start cc p0+2`.
fn tell_link(rt: &impl Print, plan: &Packed, number: usize) -> io::Result<()> {
    let Some(ends) = plan.ends(number) else {
        return Ok(());
    };
    let from = end(plan, ends.from);
    print!(rt; "link {number}: {from}")?;
    if let Some(params) = plan.params(ends.from.task) {
        // by number, since the numbers are what is told
        for i in 0..params.used {
            print!(rt; " p{i}")?;
        }
    }
    let to = end(plan, ends.to);
    print!(rt; " to {to}")?;
    tell_rules(rt, plan, number, ends.to.task)?;
    println!(rt; "")
}

// One end of a link.
fn end<'a>(plan: &Packed<'a>, end: EventType) -> End<'a> {
    End {
        side: end.side,
        name: name(plan, end.task),
    }
}

// The rules of a link, one for each parameter of the task that it goes to.
fn tell_rules(rt: &impl Print, plan: &Packed, number: usize, to: usize) -> io::Result<()> {
    let (Some(link), Some(params)) = (plan.link(number), plan.params(to)) else {
        return Ok(());
    };
    for rule in link.rules.iter().take(params.used) {
        let value = Value(*rule);
        print!(rt; " {value}")?;
    }
    Ok(())
}

// What is in an accepted plan.
fn tell(rt: &impl Print, plan: &Packed) -> io::Result<()> {
    let tasks = plan.task_count();
    let links = plan.link_count();
    let events = events(plan);
    println!(rt; "{tasks} tasks, {links} links, {events} events")?;
    // by number, as the plan is asked
    for task in 0..tasks {
        tell_task(rt, plan, task)?;
    }
    for link in 0..links {
        tell_link(rt, plan, link)?;
    }
    Ok(())
}

fn main(rt: HostRuntime) -> anyhow::Result<()> {
    let bytes = plan_bytes(&rt)?;
    match Packed::try_from(bytes.as_slice()) {
        Ok(plan) => tell(&rt, &plan)?,
        Err(fault) => println!(rt; "{fault}")?,
    }
    Ok(())
}
