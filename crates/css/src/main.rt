//! The program `css` over the real streams, sockets and programs.
#![tactic(auto)]

use css_app::{Status, run, tell};
use css_drive::{Before, Nobody};
use css_follow::{Cues, Meter};
use css_hints::{Asked, Course, hint, waiting};
use css_net::{
    ChildSpawner, NetOutside, NetRuntime, PatientWriter, Seen, StdSink, StdSource,
    take_standard_numbers,
};
use css_outside::{Sink, write_all};
use css_told::{TellingOutside, TellingSink, TellingSpawner};
use std::alloc::Global;
use std::env::Env;
use std::io::{Error, ErrorKind, IsTerminal, Read};
use std::process::ExitCode;
use std::time::Clock;
use std::{env, io};

// The words after the program's name.
fn words<R: Env + AllocGlobal>(rt: &R) -> io::Result<Vec<String>> {
    let mut words = Vec::new(rt.alloc());
    for word in env::args(rt)?.skip(1) {
        words.push(word)?;
    }
    Ok(words)
}

// How the program ends where its words weren't read. Those that aren't UTF-8 are the words of no command.
fn without_words(error: &Error) -> Status {
    match error.kind() {
        ErrorKind::OutOfMemory => Status::Memory,
        _ => Status::Usage,
    }
}

// Tells a person at a terminal what a command waits for.
fn tell_of_input<K: Sink>(rt: &HostRuntime, words: &[String], errors: &mut K) {
    if rt.stdin().is_terminal() {
        if let Some(line) = waiting(rt.alloc(), words) {
            // A person who can't be told this can type the input all the same.
            let _ = write_all(errors, line.bytes());
        }
    }
}

// The line of the input that a status refuses, where it is still kept.
fn refused_line<'a, R: Read, C: Clock>(
    status: &Status,
    source: &'a StdSource<'_, R, C>,
) -> Option<&'a [u8]> {
    match status {
        Status::BadLine { line, .. } => source.line(*line),
        Status::BadSheet { line } => source.line(*line),
        _ => None,
    }
}

// How far a run came, by what its outside has seen.
fn course_of(seen: &Seen) -> Course<'_> {
    Course {
        state: &seen.state,
        has_clock: seen.has_clock,
        requests: seen.requests,
        responses: seen.responses,
        has_timestamps: seen.has_timestamps,
        timestamps: seen.timestamps,
    }
}

// What is known of a run beside its status, for a hint.
fn asked_of<'a, N: NetRuntime, R: Read, C: Clock>(
    words: &'a [String],
    status: &Status,
    outside: &'a NetOutside<N>,
    source: &'a StdSource<'_, R, C>,
) -> Asked<'a> {
    Asked {
        words,
        dial: outside.last_dial_failure(),
        wrong_answer: outside.wrong_answer(),
        line: refused_line(status, source),
        first_line: source.line(1),
        first_line_returned: source.first_line_returned(),
        course: course_of(outside.seen()),
    }
}

// Writes the line that helps after a status, where one does.
fn print_hint<K: Sink>(alloc: Global, status: &Status, asked: &Asked<'_>, sink: &mut K) {
    if let Some(line) = hint(alloc, status, asked) {
        let _ = write_all(sink, line.bytes());
    }
}

// Who follows a companion: its cues and its meter.
fn cues_and_meter(alloc: Global) -> Before<Cues, Before<Meter, Nobody>> {
    Before {
        first: Cues::new(alloc),
        rest: Before {
            first: Meter::new(alloc),
            rest: Nobody,
        },
    }
}

fn main(rt: HostRuntime) -> ExitCode {
    take_standard_numbers(&rt);
    let mut source = StdSource::new(rt.reader(), &rt);
    source.keep_lines();
    let mut sink = TellingSink::new(StdSink::new(io::writer(&rt), &rt));
    let mut outside = TellingOutside::new(NetOutside::new(rt.alloc(), &rt));
    let mut spawner = TellingSpawner::new(ChildSpawner::new(rt.alloc(), &rt));
    let mut followers = cues_and_meter(rt.alloc());
    let mut errors = TellingSink::new(StdSink::new(PatientWriter::new(rt.stderr().lock()), &rt));
    let words = words(&rt);
    let status = match &words {
        Ok(words) => {
            tell_of_input(&rt, words, &mut errors);
            run(
                rt.alloc(),
                words,
                &mut source,
                &mut sink,
                &mut outside,
                &mut spawner,
                &mut followers,
            )
        }
        Err(error) => without_words(error),
    };
    let mut outside = outside.into_inner();
    outside.end();
    source.end_lines();
    let number = tell(rt.alloc(), &status, &mut errors).number;
    if let Ok(words) = &words {
        let asked = asked_of(words, &status, &outside, &source);
        print_hint(rt.alloc(), &status, &asked, &mut errors);
    }
    ExitCode::from(number)
}
