//! What helps after each status.

use crate::running::{NO_MEMORY, check, over, run_case, words_of};
use crate::status_tests::check_told;
use css_app::{LineWhy, Status};
use css_cii::{CiiFault, CiiName};
use css_companion::{Cause, Report};
use css_hints::{Asked, Course, hint};
use css_num::Text;
use css_outside::Failure;
use css_schedule::PlayerFault;
use std::alloc::Global;
use std::process::Abort;

/// A run that dialled the television alone.
const DIALLED: Course<'static> = Course {
    state: b"",
    has_clock: false,
    requests: 0,
    responses: 0,
    has_timestamps: false,
    timestamps: 0,
};

/// The words, the refused line and the last CSS-CII text of a run.
type Told = (&'static str, &'static str, &'static str);

/// What is known of a run with these words that was told this.
fn asked_of<'a>(words: &'a [String], told: &Told) -> Asked<'a> {
    let (_, refused, state) = *told;
    Asked {
        words,
        dial: Some(Failure::HttpStatus(404)),
        wrong_answer: None,
        line: Some(refused.as_bytes()),
        first_line: None,
        first_line_returned: false,
        course: Course {
            state: state.as_bytes(),
            ..DIALLED
        },
    }
}

/// What helps after a status: nothing, or a line of these words.
fn check_helps(rt: &impl Abort, alloc: Global, status: &Status, asked: &Asked<'_>, helps: &str) {
    match hint(alloc, status, asked) {
        None => check(rt, b"", helps.as_bytes(), helps),
        Some(hint) => {
            let wanted = format!(in alloc; "css: hint: {helps}\n").expect(rt, NO_MEMORY);
            check(rt, hint.bytes(), wanted.as_bytes(), helps);
        }
    }
}

/// What helps after a status of a run that was told this.
fn check_hint(rt: &impl Abort, alloc: Global, status: &Status, told: &Told, helps: &str) {
    let (line, ..) = told;
    let words = words_of(rt, alloc, line);
    check_helps(rt, alloc, status, &asked_of(&words, told), helps);
}

fn check_all(rt: &impl Abort, alloc: Global, rows: &[(Status, Told, &str)]) {
    for (status, told, helps) in rows {
        check_hint(rt, alloc, status, told, helps);
    }
}

/// Statuses of whose hints no run of the program tells, and of each other kind one.
#[rattlefmt::skip]
const HINTS: [(Status, Told, &str); 23] = [
    (Status::Done, ("tv", "", ""), ""),
    (Status::Usage, ("comapnion", "", ""), "no such command: comapnion; did you mean companion?"),
    (Status::Usage, ("television", "", ""), "no such command: television; css --help lists them"),
    (Status::Usage, ("", "", ""), "give a command: css --help lists them"),
    (Status::Usage, ("tv --host [::1]", "", ""), ""),
    (Status::Usage, ("tv --turns x", "", ""), "--turns: x isn't a whole number from 1 to 1000000"),
    (Status::BadLine { line: 1, why: LineWhy::Form }, ("agree", "css-agree 1 0", ""),
        "word 4 is missing; it may be a number from 0 to 1000000000"),
    (Status::BadLine { line: 2, why: LineWhy::Form }, ("agree", "at 5", ""),
        "a line is: answer T1 T2 T3 T4 K E, or: at R"),
    (Status::BadLine { line: 3, why: LineWhy::Absent }, ("replay", "5 5 5 take 7 5", ""), "request 7 wasn't sent"),
    (Status::BadLine { line: 3, why: LineWhy::Player(PlayerFault::Full) }, ("tv", "", ""),
        "there are at most 1,000 programmes, and 16 timelines in each"),
    (Status::Broken { line: 4, earlier: 2, excess: 1 }, ("replay", "", ""), ""),
    (Status::ReadFault, ("replay", "", ""), ""),
    (Status::NetFault(Failure::InUse), ("relay", "", ""),
        "another program has port 6690 or the next one: stop it, or give another --port"),
    (Status::NetFault(Failure::NoSuchHost), ("tv --host n\u{f6}", "", ""),
        "there is no host n??: give --host an address of this machine"),
    (Status::NetFault(Failure::Other), ("tv", "", ""), ""),
    (Status::ChildFault { status: Err(Failure::NoPermission) }, ("pair", "", ""),
        "the television that was to run beside the companion: the system says that this user may not do that"),
    (Status::ChildFault { status: Ok(3) }, ("pair", "", ""), ""),
    (Status::BadSheet { line: 12 }, ("companion", "cue x one", ""),
        "word 2 may be a number from -999999999999999999 to 999999999999999999, and is x"),
    (Status::BadCii { text: 3, fault: CiiFault::NotJson }, ("companion", "", "\u{f6}"),
        "text 3 of the CSS-CII session isn't JSON: ??"),
    (Status::BadUrl { property: CiiName::WcUrl }, ("companion", "", "{\"wcUrl\" : \"h\"}"),
        "the television's wcUrl is no address of the form udp://HOST:PORT: h"),
    (Status::BadUrl { property: CiiName::TsUrl }, ("companion", "", "{}"),
        "the television's tsUrl is no address of the form ws://HOST:PORT/PATH"),
    (Status::WrongReport { line: 7, right: Report::None(Cause::NoAnswer) }, ("audit", "", ""),
        "the report that was to be made here is: none NoAnswer"),
    (Status::NoInterval { reports: 9 }, ("watch", "", ""),
        "no report had ticks: the cause and the detail of each report line say what was missing"),
];

/// The lines behind the header of a schedule of two companions: the number of a refused one, what it is, and the hint.
#[rattlefmt::skip]
const COMPANIONS: [(u64, &str, &str); 5] = [
    (2, "", "line 2 has to be: companion 1 EL PL SELECTOR STEM"),
    (3, "0 0 1 0 wall 0", "line 3 has to be: companion 2 EL PL SELECTOR STEM"),
    (2, "companion 2 0 0 a -", "line 2 has to be: companion 1 EL PL SELECTOR STEM"),
    (2, "companion 1 x 0 a -", "word 3 may be a number from 0 to 2560000, and is x"),
    (4, "0 0 1 0 wall", "word 6 is missing; it may be a number from 0 to 4294967295999999999"),
];

/// A schedule whose companions aren't declared is told which line is missing.
#[test]
fn a_missing_companion_is_told(rt: HostRuntime) {
    let words = words_of(&rt, rt.alloc(), "replay");
    for (number, line, helps) in COMPANIONS.as_slice() {
        let refused = Status::BadLine {
            line: *number,
            why: LineWhy::Form,
        };
        let asked = Asked {
            first_line: Some(b"css-schedule 2 plain 0 -20 2"),
            ..asked_of(&words, &("replay", line, ""))
        };
        check_helps(&rt, rt.alloc(), &refused, &asked, helps);
    }
}

#[test]
fn each_status_has_its_hint(rt: HostRuntime) {
    check_all(&rt, rt.alloc(), &HINTS);
}

/// Were this line of a schedule refused, its hint would name none of its words.
fn check_no_word(rt: &impl Abort, alloc: Global, number: u64, line: &str, asked: &Asked<'_>) {
    let why = LineWhy::Form;
    let refused = Status::BadLine { line: number, why };
    let helps = hint(alloc, &refused, asked).expect(rt, NO_MEMORY);
    let told = helps.bytes();
    let names_none = told.starts_with(b"css: hint: a line is ")
        || told.starts_with(b"css: hint: line ");
    assert!(rt; names_none, "{number}: {line}");
}

/// Words of a command, and what hints of its lines are asked for.
const GENERATED: [(&str, &str); 3] = [
    ("generate --seed 7 --lines 600", "replay"),
    ("generate --seed 7 --lines 600", "migrate"),
    ("generate --seed 7 --lines 600 --companions 3", "replay"),
];

/// The hints have a grammar of their own, and each line that is generated is in it.
#[test]
fn no_word_of_a_generated_line_is_wrong(rt: HostRuntime) {
    for (generate, command) in &GENERATED {
        let (_, schedule) = run_case(&rt, rt.alloc(), &over(generate, ""));
        let text = str::from_utf8(&schedule).unwrap_or("");
        let first_line = text.split('\n').next().unwrap_or("");
        let words = words_of(&rt, rt.alloc(), command);
        let mut number: u64 = 0;
        for line in text.split('\n') {
            number = number.saturating_add(1);
            if !line.is_empty() {
                let asked = Asked {
                    line: Some(line.as_bytes()),
                    first_line: Some(first_line.as_bytes()),
                    ..asked_of(&words, &(command, "", ""))
                };
                check_no_word(&rt, rt.alloc(), number, line, &asked);
            }
        }
        assert!(rt; number > 600, "{generate}: {number} lines");
    }
}

/// Both addresses are cut in the hint, the new one before a letter of two bytes. Neither is part of the status line.
#[test]
fn a_moved_address_is_told(rt: HostRuntime) {
    let new = "nnnnnnnnnnnnnnnnnnnnnnnnnnnnnnnnnnnnnnnnnnnnnnnnnnnnnnnnnnn\u{f6}";
    let moved = Status::Moved {
        property: CiiName::WcUrl,
        old: Text::of(rt.alloc(), &[b'o'; 300]).expect(&rt, NO_MEMORY),
        new: Text::of(rt.alloc(), new.as_bytes()).expect(&rt, NO_MEMORY),
    };
    check_told(&rt, rt.alloc(), &moved, 8, "css: moved wcUrl\n");
    let helps = "wcUrl was oooooooooooooooooooooooooooooooooooooooooooooooooooooooooooo and is \
         nnnnnnnnnnnnnnnnnnnnnnnnnnnnnnnnnnnnnnnnnnnnnnnnnnnnnnnnnnn: start the relay again";
    check_hint(&rt, rt.alloc(), &moved, &("relay", "", ""), helps);
}
