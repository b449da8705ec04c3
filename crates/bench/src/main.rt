// Times the questions about the plan in plan.bin, `bench questions`, the verdict of a new run on it, `bench verdict`, and that of
// one on a pipeline, which needs no file, `bench pipeline`.
#![tactic(auto)]

use pipeline::Pipeline;
use plans::{Packed, Source, Word};
use runs::{Outcome, Run};
use std::time::Instant;
use std::{env, fmt, fs, io};

// As many events as any plan has.
const BUDGET: u32 = 8_388_608;

// Each question is asked so often.
const TURNS: u32 = 10_000_000;

// The task that a turn asks about.
fn task_in(turn: u32) -> usize {
    (turn >> 16) as usize % 32
}

// The link that a turn asks about.
fn link_in(turn: u32) -> usize {
    (turn >> 16) as usize % 64
}

// The place that a turn asks about.
fn place_in(turn: u32) -> u32 {
    turn & 0xFFFF
}

// The word that a turn asks about.
fn word_in(turn: u32) -> Word {
    ((turn & 0xF) << 24) | ((turn & 0xF0) << 12) | (turn & 0xF00) | ((turn >> 12) & 0xF)
}

// The low bits of a count or a task's number.
fn low_byte(number: usize) -> u32 {
    (number & 0xFF) as u32
}

// A number of tenths, as `12.3`.
#[derive(Clone, Copy)]
struct Tenths(u128);

impl fmt::Display for Tenths {
    fn fmt<W: fmt::Write>(&self, f: &mut fmt::Formatter<W>) -> fmt::Result {
        let whole = self.0 / 10;
        let tenth = self.0 % 10;
        write!(f, "{whole}.{tenth}")
    }
}

// Asks one question over and over, each turn's answer as a number, and prints what one took.
fn time<F: Fn(u32) -> u32>(rt: &HostRuntime, name: &str, ask: F) -> io::Result<()>
    requires { F.IsAlwaysCallable ask }
{
    let start = Instant::now(rt)?;
    let sum = (0..TURNS).fold(0u32, |sum, turn| sum.wrapping_add(ask(turn)));
    let each = Tenths(start.elapsed(rt)?.as_nanos() / u128::from(TURNS / 10));
    println!(rt; "{name}: {each} ns (sum {sum})")
}

// The most memory that the program has had, as the system tells it.
fn tell_memory(rt: &HostRuntime) -> io::Result<()> {
    let status = fs::read_to_string(rt, "/proc/self/status")?;
    for line in status
        .as_str()
        .lines()
        .filter(|line| line.starts_with("VmHWM"))
    {
        println!(rt; "{line}")?;
    }
    Ok(())
}

// What each question took. The two counts are the same at every turn, so the compiler may ask them once.
fn questions(rt: &HostRuntime) -> io::Result<()> {
    // not planfile's `plan_bytes`: without the file there is nothing to time
    let bytes = fs::read(rt, "plan.bin")?;
    let plan = Packed::new(&bytes);
    time(rt, "task count", |_| low_byte(plan.task_count()))?;
    time(rt, "word count", |turn| {
        plan.word_count(task_in(turn)).unwrap_or(0)
    })?;
    time(rt, "word at a place", |turn| {
        plan.word_at(task_in(turn), place_in(turn)).unwrap_or(0)
    })?;
    time(rt, "place of a word", |turn| {
        plan.place_of(task_in(turn), word_in(turn)).unwrap_or(0)
    })?;
    time(rt, "word after a word", |turn| {
        plan.next_word(task_in(turn), word_in(turn)).unwrap_or(0)
    })?;
    time(rt, "link count", |_| low_byte(plan.link_count()))?;
    time(rt, "ends of a link", |turn| {
        plan.ends(link_in(turn))
            .map_or(0, |ends| low_byte(ends.to.task))
    })?;
    time(rt, "target at a word", |turn| {
        plan.target(link_in(turn), word_in(turn)).unwrap_or(0)
    })?;
    tell_memory(rt)
}

// Plays the verdict of a new run on a plan: how many events it posted, and the time that it took.
fn play<S: Source + Drop>(rt: &HostRuntime, plan: S) -> io::Result<(u32, u128)> {
    let mut run = Run::open(plan);
    let start = Instant::now(rt)?;
    let count = match run.verdict(BUDGET) {
        Ok(Outcome::Finishes(count) | Outcome::DeadEnd(count)) => count,
        // a refused verdict has posted nothing that is counted
        Err(_) => 0,
    };
    Ok((count, start.elapsed(rt)?.as_nanos()))
}

// What an event took on the plan in plan.bin.
fn verdict(rt: &HostRuntime) -> io::Result<()> {
    let bytes = fs::read(rt, "plan.bin")?;
    let (count, nanos) = play(rt, Packed::new(&bytes))?;
    let each = nanos / u128::from(count.max(1));
    println!(rt; "{count} events, {each} ns an event")?;
    tell_memory(rt)
}

// What an event took on a pipeline of 32 tasks, each at most four words ahead of the next.
fn pipeline_verdict(rt: &HostRuntime) -> io::Result<()> {
    let (count, nanos) = play(rt, Pipeline::new(32, 65_536, 4))?;
    let each = Tenths(nanos / u128::from((count / 10).max(1)));
    println!(rt; "{count} events, {each} ns an event")?;
    tell_memory(rt)
}

fn main(rt: HostRuntime) -> anyhow::Result<()> {
    let word = env::args(&rt)?.nth(1);
    match word.as_ref().map(|word| word.as_str()) {
        Some("questions") => questions(&rt)?,
        Some("verdict") => verdict(&rt)?,
        Some("pipeline") => pipeline_verdict(&rt)?,
        _ => {
            println!(rt; "usage: bench questions, or bench verdict, in a folder with a plan.bin")?
        }
    }
    Ok(())
}
