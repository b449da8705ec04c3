// What the programs share: where a plan's bytes come from, and how its tasks are called.
#![tactic(auto)]

ghost use Rattle.std.specs.Prelude.{◌≡◌, ◌≢◌, IfOk, IfErr};
ghost use Rattle.std.specs.IoError.{error_kind};
ghost use Rattle.plans.specs.Decoded.{shown};
ghost use Rattle.planfile.specs.Called.{called};

use plans::Packed;
use std::io::ErrorKind;
use std::rt::Files;
use std::str::from_utf8;
use std::{fs, io};

// What was read of a file, or `none` where it is missing.
fn unless_missing<T: Drop>(read: io::Result<T>, none: T) -> io::Result<T>
    ensures read { IfOk read (λ bytes. result ≡ Ok bytes) }
    ensures missing { IfErr read (λ e. error_kind e ≡ ErrorKind.NotFound → result ≡ Ok none) }
    ensures failed { IfErr read (λ e. (error_kind e ≢ ErrorKind.NotFound) → result ≡ Err e) }
{
    match read {
        Err(e) if e.kind() == ErrorKind::NotFound => Ok(none),
        bytes => bytes,
    }
}

// The bytes of plan.bin, or none where it is missing: so a failure is never that. What a file holds, no clause can say.
pub fn plan_bytes<R: Files + Alloc>(rt: &R) -> io::Result<Vec<u8, R::A>>
    ensures { IfErr result (λ e. error_kind e ≢ ErrorKind.NotFound) }
{
    unless_missing(fs::read(rt, "plan.bin"), Vec::new(rt.alloc()))
}

// A task's name as text, or `?` for an unknown task.
#[tactic(auto, using(crate::proofs::Text::text_from_name))]
pub fn name<'a>(plan: &Packed<'a>, task: usize) -> &'a str
    ensures { result.now ≡ called plan.now.bytes.now (shown plan.now.parts).names task }
{
    match plan.name_of(task) {
        Some(name) => from_utf8(name).unwrap(),
        None => "?",
    }
}
