// Packed plans as sources.
ghost use Rattle.std.specs.Prelude.{◌≡◌, ◌+◌, ◌≤◌, length as long, [], take, drop, IfSome};
ghost use Rattle.std.specs.List.{slice_get};
ghost use Rattle.plans.specs.Names.{name_at, Named, IsName};
ghost use Rattle.plans.specs.Plan.{kept};
ghost use Rattle.plans.specs.Meaning.{plan_of, parts_or};
ghost use Rattle.plans.specs.Record.{checked};
ghost use Rattle.plans.specs.Terms.{Terms};
ghost use Rattle.plans.specs.Unpacked.{Unpacks};
ghost use Rattle.plans.specs.Decoded.{shown};

use crate::checks::decode;
use crate::ends::Ends;
use crate::fault::Fault;
use crate::packed::Packed;
use crate::record::Record;
use crate::room::Row;
use crate::shapes::{Link, Name, Params};
use crate::source::Source;
use crate::task::Task;
use crate::tasks::Tasks;
use crate::word::Word;

// The record without tasks: a function, since no constant can call `Row::new`.
fn empty() -> Record
    ensures { shown result ≡ record { tasks = []; links = []; names = [] } }
{
    let each = Row::first([Params::NONE; 32], 0);
    let tasks = Tasks { each };
    let links = Row::first([Link::NONE; 64], 0);
    let names = Row::first([Name::NONE; 32], 0);
    Record {
        tasks,
        links,
        names,
    }
}

impl<'a> TryFrom<&'a [u8]> for Packed<'a> {
    type Error = Fault;

    ghost try_from_gives = { Unpacks };

    // The plan that bytes describe, or the one fault that counts.
    fn try_from(bytes: &'a [u8]) -> Result<Self, Fault> {
        let parts = decode(bytes)?;
        Ok(Packed { bytes, parts })
    }
}

// So many bytes from a place on.
fn part<'a>(bytes: &'a [u8], begin: usize, length: usize) -> &'a [u8]
    requires { begin + length ≤ long bytes.now }
    ensures bytes { result.now ≡ take length (drop begin bytes.now) }
    ensures place { result.ref_ptr ≡ (bytes.entry.ref_ptr.0, bytes.entry.ref_ptr.1 + begin) }
{
    let end = begin + length;
    &bytes[begin..end]
}

impl<'a> Packed<'a> {
    // The plan that bytes describe, or the empty plan where they do not pass the check.
    pub fn new(bytes: &'a [u8]) -> Self
        ensures bytes { result.bytes.now ≡ bytes.now }
        ensures place { result.bytes.ref_ptr ≡ bytes.entry.ref_ptr }
        ensures parts { shown result.parts ≡ parts_or (checked bytes.now) }
        ensures terms { Terms bytes.now (plan_of (shown result.parts)) }
    {
        // not by `try_from`, whose answer would be moved twice more
        let parts = match decode(bytes) {
            Ok(parts) => parts,
            Err(_) => empty(),
        };
        Packed { bytes, parts }
    }

    // A task's name, as that part of the record.
    pub fn name_of(&self, task: usize) -> Option<&'a [u8]>
        ensures bytes { Named self.now.bytes.now (shown self.now.parts).names task result }
        ensures formed { IfSome result (λ x. IsName x.now) }
        ensures place { IfSome result (λ x. x.ref_ptr ≡ (self.now.bytes.ref_ptr.0, self.now.bytes.ref_ptr.1 + (name_at (shown self.now.parts).names task).at)) }
    {
        let name = self.parts.names.items().get(task)?;
        Some(part(self.bytes, name.at, name.length))
    }
}

impl<'a> Packed<'a> {
    // A task's parameters, as the record has them.
    pub fn params(&self, task: usize) -> Option<Params>
        ensures { result ≡ slice_get (shown self.now.parts).tasks task }
    {
        self.parts.tasks.each.items().get(task).copied()
    }

    // A link with its rules, as the record has it.
    pub fn link(&self, link: usize) -> Option<Link>
        ensures { result ≡ slice_get (shown self.now.parts).links link }
    {
        self.parts.links.items().get(link).copied()
    }
}

impl<'a> Source for Packed<'a> {
    ghost plan = { λ p. plan_of (shown p.parts) };

    ghost keeps = { λ p. kept p.keeps };

    fn task_count(&self) -> usize {
        let parts = &self.parts;
        parts.tasks.each.items().len()
    }

    fn word_count(&self, task: usize) -> Option<u32> {
        let task = self.parts.tasks.get(task)?;
        Some(task.word_count())
    }

    fn word_at(&self, task: usize, place: u32) -> Option<Word> {
        self.parts.tasks.get(task)?.word_at(place)
    }

    fn place_of(&self, task: usize, word: Word) -> Option<u32> {
        self.parts.tasks.get(task)?.place_of(word)
    }

    fn next_word(&self, task: usize, word: Word) -> Option<Word> {
        self.parts.tasks.get(task)?.next(word)
    }

    fn link_count(&self) -> usize {
        let parts = &self.parts;
        parts.links.items().len()
    }

    fn ends(&self, link: usize) -> Option<Ends> {
        let link = self.parts.links.items().get(link)?;
        Some(link.ends)
    }

    fn target(&self, link: usize, word: Word) -> Option<Word> {
        // by a reference, since the two tasks and the rules are dear to move
        let joined = self.parts.joined(link);
        joined.as_ref()?.target_at(word)
    }
}
