//! Replays the schedule on standard input, as `css replay` does, and reads no words. It stands on what a replay needs
//! and on no sockets, so it is proved much sooner than the whole program: a first `./css replay` is answered by it
//! while that isn't built yet. It tells the status, and no hint after it.
#![tactic(auto)]

use css_devices::{PatientWriter, StdSink, StdSource, take_standard_numbers};
use css_replay::replay;
use css_status::tell;
use css_told::TellingSink;
use std::io;
use std::process::ExitCode;

fn main(rt: HostRuntime) -> ExitCode {
    take_standard_numbers(&rt);
    let mut source = StdSource::new(rt.reader(), &rt);
    let mut sink = TellingSink::new(StdSink::new(io::writer(&rt), &rt));
    let status = replay(rt.alloc(), &mut source, &mut sink);
    let mut errors = TellingSink::new(StdSink::new(PatientWriter::new(rt.stderr().lock()), &rt));
    ExitCode::from(tell(rt.alloc(), &status, &mut errors).number)
}
