//! This same program as a child.
ghost use Rattle.std.specs.Prelude.{◌≡◌, ◌+◌, ◌<◌, None, length, OnOk, OnErr};
ghost use Rattle.css_outside.specs.Faults.{CountsCall};

use crate::faults::{fault_of, no_memory, no_room};
use css_num::Text;
use css_outside::{Failure, OutFault, Spawner};
use std::alloc::Global;
use std::env::Env;
use std::fs::Files;
use std::io::{ErrorKind, Write};
use std::process::{Child, Command, OpenProcess, Processes, Stdio};
use std::{env, io, str};

/// Starts this program again with other words, and waits for it. A child writes where this program does.
#[derive(Drop)]
pub struct ChildSpawner<'a, R: Processes> {
    alloc: Global,
    rt: &'a R,
    /// Another program's file, in place of this one's.
    program: Option<&'a str>,
    children: Vec<Child<R::Started>>,
    faults: u64,
}

impl<'a, R: Processes> ChildSpawner<'a, R> {
    /// No child was started.
    pub fn new(alloc: Global, rt: &'a R) -> ChildSpawner<'a, R>
        ensures faults { result.faults ≡ 0 }
    {
        ChildSpawner {
            alloc,
            rt,
            program: None,
            children: Vec::new(alloc),
            faults: 0,
        }
    }

    /// Starts the program of this file in place of its own.
    pub fn of_program(alloc: Global, rt: &'a R, program: &'a str) -> ChildSpawner<'a, R>
        ensures faults { result.faults ≡ 0 }
    {
        ChildSpawner {
            alloc,
            rt,
            program: Some(program),
            children: Vec::new(alloc),
            faults: 0,
        }
    }
}

/// The word that this program was started by, where it is a path.
fn own_path<R: Env>(alloc: Global, rt: &R) -> io::Result<Option<String>> {
    let first = env::args(&(rt, alloc))?.next();
    Ok(first.filter(|word| word.as_str().contains('/')))
}

/// Whether a file is the system's loader of programs, by its name.
fn is_loader(path: &str) -> bool {
    match path.rsplit_once('/') {
        Some((_, name)) => name.starts_with("ld-"),
        None => false,
    }
}

/// The command of the file that the system runs. Where that is a loader, it is the file that the first word names.
fn own_program<R: Env + Files>(alloc: Global, rt: &R) -> io::Result<Command> {
    let running = env::current_exe(&(rt, alloc))?;
    if is_loader(running.as_str()) {
        if let Some(path) = own_path(alloc, rt)? {
            return Ok(Command::new(alloc, path.as_str())?);
        }
    }
    Ok(Command::new(alloc, running.as_path())?)
}

/// The command of a child that has no words yet.
fn command_of<R: Env + Files>(alloc: Global, rt: &R, program: Option<&str>) -> io::Result<Command> {
    match program {
        Some(program) => Ok(Command::new(alloc, program)?),
        None => own_program(alloc, rt),
    }
}

/// Gives a command a further word.
fn add_word(command: &mut Command, word: &Text) -> io::Result<()> {
    match str::from_utf8(word.bytes()) {
        Ok(word) => {
            command.arg(word)?;
            Ok(())
        }
        Err(_) => Err(io::Error::from(ErrorKind::InvalidInput)),
    }
}

/// Gives a child its standard input. One that has gone, or doesn't read to the end, is told nothing more.
fn feed<W: Write>(stdin: &mut W, input: &[u8]) -> io::Result<()> {
    match stdin.write_all(input) {
        Err(error) if error.kind() == ErrorKind::BrokenPipe => Ok(()),
        other => other,
    }
}

/// Gives a child all of its standard input, and ends that. Where it can't be given the child is ended.
fn give<P: OpenProcess>(child: &mut Child<P>, input: &[u8]) -> io::Result<()> {
    let fed = match &mut child.stdin {
        Some(stdin) => feed(stdin, input),
        None => Ok(()),
    };
    child.stdin = None;
    if fed.is_err() && child.kill().is_ok() {
        let _ = child.wait();
    }
    fed
}

/// Starts a child with these words, and gives it all of its standard input.
fn spawn<R: Processes>(
    rt: &R,
    command: &mut Command,
    words: &[Text],
    input: &[u8],
) -> io::Result<Child<R::Started>> {
    for word in words {
        add_word(command, word)?;
    }
    command.stdin(Stdio::piped());
    let mut child = command.spawn(rt)?;
    give(&mut child, input)?;
    Ok(child)
}

// The one place that drops a command: a drop of one is long to prove.
fn begin<R: Processes>(
    rt: &R,
    mut command: Command,
    words: &[Text],
    input: &[u8],
) -> io::Result<Child<R::Started>> {
    spawn(rt, &mut command, words, input)
}

impl<'a, R: Processes + Env + Files> ChildSpawner<'a, R> {
    fn begin_one(&mut self, words: &[Text], input: &[u8]) -> Result<(), OutFault>
        ensures ok { OnOk result (length self.new.children.items ≡ length self.old.children.items + 1) }
        ensures err { OnErr result (length self.new.children.items ≡ length self.old.children.items) }
        ensures faults { self.new.faults ≡ self.old.faults }
    {
        self.children.reserve(1).map_err(no_memory)?;
        let command = command_of(self.alloc, self.rt, self.program).map_err(fault_of)?;
        let child = begin(self.rt, command, words, input).map_err(fault_of)?;
        self.children.push(child).map_err(no_room)
    }

    /// The exit status of the child that was started last. One that a signal ended has none, and counts as a fault.
    fn end_last(&mut self) -> Result<i32, OutFault>
        ensures ok { OnOk result (length self.new.children.items + 1 ≡ length self.old.children.items) }
        ensures err { OnErr result (length self.new.children.items ≡ length self.old.children.items) }
        ensures faults { self.new.faults ≡ self.old.faults }
    {
        let count = self.children.len();
        if count == 0 {
            return Err(OutFault::Failed(Failure::Other));
        }
        let ended = self.children[count - 1].wait().map_err(fault_of)?;
        match ended.code() {
            Some(status) => {
                self.children.truncate(count - 1);
                Ok(status)
            }
            None => Err(OutFault::Failed(Failure::Other)),
        }
    }

    fn counted<T: Drop>(&mut self, outcome: Result<T, OutFault>) -> Result<T, OutFault>
        ensures counted { CountsCall self.old.faults self.new.faults result }
        ensures same { result ≡ outcome }
        ensures children { self.new.children ≡ self.old.children }
    {
        match outcome {
            Ok(value) => Ok(value),
            Err(OutFault::Failed(failure)) => {
                self.faults = self.faults.saturating_add(1);
                Err(OutFault::Failed(failure))
            }
            Err(OutFault::Memory) => Err(OutFault::Memory),
        }
    }
}

impl<'a, R: Processes + Env + Files> Spawner for ChildSpawner<'a, R> {
    ghost told = { λ _. None };

    ghost running = { λ spawner. length spawner.children.items };

    ghost faults = { λ spawner. spawner.faults };

    fn start(&mut self, words: &[Text], input: &[u8]) -> Result<(), OutFault> {
        let started = self.begin_one(words, input);
        self.counted(started)
    }

    fn finish(&mut self) -> Result<i32, OutFault> {
        let ended = self.end_last();
        self.counted(ended)
    }
}
