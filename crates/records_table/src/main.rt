// Checks each record of a table: a line of the input is a name, a space and the record's bytes in hexadecimal.
#![tactic(auto)]

ghost use Rattle.std.specs.Prelude.{◌<◌, IfSome};

use plans::{Packed, Source, check};
use std::alloc::{AllocError, Global};
use std::io;
use std::io::{BufRead, BufReader};

// The value of a hexadecimal digit, of the small ones alone; `char::to_digit` takes capitals too.
fn digit(c: u8) -> Option<u8>
    ensures { IfSome result (λ n. n < 16) }
{
    match c {
        b'0'..=b'9' => Some(c - b'0'),
        b'a'..=b'f' => Some(c - b'a' + 10),
        _ => None,
    }
}

// The byte that two digits spell; what is no digit counts as 0.
fn byte(high: u8, low: u8) -> u8 {
    digit(high).unwrap_or(0) * 16 + digit(low).unwrap_or(0)
}

// The bytes that hexadecimal digits spell.
fn bytes_of(heap: Global, digits: &[u8]) -> Result<Vec<u8>, AllocError> {
    let mut bytes = Vec::new(heap);
    for pair in digits.chunks_exact(2) {
        if let [high, low] = pair {
            bytes.push(byte(*high, *low))?;
        }
    }
    Ok(bytes)
}

// The row for one record. It is checked and then unpacked, so that both calls are tried.
fn tell(rt: &impl Print, name: &str, bytes: &[u8]) -> io::Result<()> {
    match check(bytes) {
        Ok(()) => {
            let plan = Packed::new(bytes);
            let tasks = plan.task_count();
            let words = plan.word_count(0).unwrap_or(0);
            println!(rt; "{name}: ok, {tasks} tasks, {words} words in the first")
        }
        Err(fault) => println!(rt; "{name}: {fault}"),
    }
}

fn main(rt: HostRuntime) -> io::Result<()> {
    let heap = rt.alloc();
    for line in BufReader::new(heap, rt.stdin())?.lines(heap) {
        let line = line?;
        if let Some((name, digits)) = line.as_str().split_once(' ') {
            tell(&rt, name, &bytes_of(heap, digits.as_bytes())?)?;
        }
    }
    Ok(())
}
