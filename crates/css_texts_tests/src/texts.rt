//! The readers of texts, and the writers that belong to them.
//!
//! A row of a table is `OUTCOME <- TEXT`. The outcome is the text that is written of the value that is read, or the
//! fault. `NAMES` has what stands for the names of members.
use crate::common::{check, check_that, words};
use css_cii::{CiiFault, CiiName, read_message, write_message};
use css_num::{Control, Memory, Text};
use css_player::PlayerFault;
use css_tsmsg::{
    Bound, Presentation, TsFault, TsName, read_control, read_presentation, read_setup,
    write_control, write_presentation, write_setup,
};
use std::alloc::Global;
use std::fmt::Display;
use std::process::Abort;

/// What a text is read as.
#[derive(Clone, Copy)]
enum Reader {
    Message,
    Setup,
    Control,
    Presentation,
}

/// The names that tables shorten.
const NAMES: [(&str, &str); 11] = [
    ("A:", r#""actual":"#),
    ("C:", r#""contentTime":"#),
    ("E:", r#""earliest":"#),
    ("I:", r#""contentIdStem":"#),
    ("L:", r#""latest":"#),
    ("N:", r#""timelineSelector":"#),
    ("P:", r#""timelineProperties":"#),
    ("S:", r#""timelineSpeedMultiplier":"#),
    ("T:", r#""unitsPerTick":"#),
    ("U:", r#""unitsPerSecond":"#),
    ("W:", r#""wallClockTime":"#),
];

/// Texts that no reader takes.
const NO_OBJECTS: &str = r#"not json <- 
not json <- {
not json <- {contentTime:"1"}
not json <- {"a":1} x
not json <- {"a":01}
not json <- {"a":"\ud800"}
not object <- []
not object <- null
not object <- -0
not object <- "contentId"
not object <- [{"contentId":"a"}]"#;

const MESSAGES: &str = r#"field protocolVersion <- {"timelines":5,"teUrl":5,"protocolVersion":5}
field mrsUrl <- {"contentId":5,"mrsUrl":[],"protocolVersion":null}
field contentId <- {"contentIdStatus":5,"contentId":5,"wcUrl":5}
field contentIdStatus <- {"contentIdStatus":5,"presentationStatus":5}
field presentationStatus <- {"wcUrl":5,"presentationStatus":5}
field wcUrl <- {"tsUrl":5,"wcUrl":5}
field tsUrl <- {"teUrl":5,"tsUrl":5}
field teUrl <- {"timelines":5,"teUrl":5}
{"timelines":null} <- {"timelines":null,"private":0.2}
{} <- {}
{} <- {"":null,"contentid":5,"ContentId":5," contentId":5}
{} <- {"private":{"contentId":5},"accuracy":0.2}
{"contentId":"dvb://1.2.4"} <- {"contentId":5,"contentId":"dvb://1.2.4"}
{"contentId":"dvb://1.2.4"} <- {"\u0063ontentId":"dvb:\/\/1.2.4"}
field contentId <- {"contentId":"dvb://1.2.4","contentId":5}
{"mrsUrl":null} <- {"mrsUrl":0.5}
{"mrsUrl":"1.5 {}","teUrl":"null","tsUrl":""} <- {"teUrl":"null","tsUrl":"","mrsUrl":"1.5 {}"}
{"contentId":"é\"\\\n日本\u0000"} <- {"contentId":"\u00e9\"\\\n日本\u0000"}
{"mrsUrl":null,"wcUrl":"c"} <-  { "wcUrl" : "c" , "mrsUrl" : null } 
{"timelines":null} <- {"timelines":1.5}
{"timelines":[]} <- {"timelines": [ ] }
{"timelines":[{P:{U:50,T:1},N:"a"},{P:{U:50,T:1},N:"a"}]} <- {"timelines":[{N:"a",P:{T:1,U:50}},{N:"a",P:{T:1,U:50}}]}
{"timelines":[{P:{U:50,T:1},N:"a"}]} <- {"timelines":[{N:"a",P:{T:1,U:50,"accuracy":0.2}}]}
{"timelines":[{P:{U:50,T:1},N:"a"}]} <- {"timelines":[{"private":[1],N:"a",P:{T:1.0,U:50.000}}]}
{"timelines":[{P:{U:1000000000,T:1000000000},N:""}]} <- {"timelines":[{N:"",P:{T:1000000000,U:1000000000}}]}"#;

/// Lists of timelines that are none. The entry `*` is one.
const NO_TIMELINES: &str = r#"5
{}
true
*
[null]
[{N:"a"}]
[{P:{T:1,U:50}}]
[{N:null,P:{T:1,U:50}}]
[{N:"a",P:null}]
[{N:"a",P:{T:1}}]
[{N:"a",P:{U:50}}]
[{N:"a",P:{T:1,U:-50}}]
[{N:"a",P:{T:1000000001,U:50}}]
[{N:"a",P:{T:1.5,U:50}}]
[{N:"a",P:{T:1,U:"50"}}]
[{N:"a",P:{T:1,U:99999999999999999999}}]
[*,5]
[{},*]"#;

const SETUPS: &str = r#"{I:"dvb://",N:""} <- {N:"","private":1.5,I:"dvb://"}
{I:"b",N:"a"} <- {I:5,I:"b",N:"a"}
field contentIdStem <- {}
field contentIdStem <- {N:"a"}
field contentIdStem <- {N:5,I:5}
field contentIdStem <- {I:"a",I:5,N:"a"}
field contentIdStem <- {I:null,N:"a"}
field timelineSelector <- {I:"a"}
field timelineSelector <- {I:"a",N:0.5}"#;

const CONTROLS: &str = r#"{C:null,S:null,W:"0"} <- {C:null,S:65,W:"1"}
{C:null,S:null,W:"0"} <- {C:null,S:0.5,W:[]}
{C:null,S:null,W:"0"} <- {C:1234567890123456789}
{C:null,S:null,W:"0"} <- {C:"5",C:null}
{C:"900000",S:1,W:"10000000000"} <- {W:"10000000000",S:1.0,C:"900000"}
{C:"0",S:0,W:"0"} <- {W:"0",S:-0,C:"-0"}
{C:"7",S:1,W:"0"} <- {W:"000",S:1,C:"007"}
{C:"-1",S:-1,W:"1"} <- {W:"1",S:-1,C:"-1"}
{C:"999999999999999999",S:64,W:"9223372036854775807"} <- {W:"9223372036854775807",S:64,C:"999999999999999999"}
{C:"-999999999999999999",S:-64,W:"1"} <- {W:"1",S:-64.00,C:"-999999999999999999"}
{C:"1",S:64,W:"9223372036854775"} <- {W:"0009223372036854775",S:64.0,C:"000000000000000001"}
fractional <- {C:"1",S:0.5,W:"1"}
fractional <- {C:"1",S:1000000000000000000,W:"1"}
fractional <- {C:"1",S:null,W:"1","b":0.5}
fractional <- {C:5,S:null,"b":0.5}
fractional <- {C:"x",S:0.5,W:5}
field contentTime <- {W:"1","b":0.5}
field timelineSpeedMultiplier <- {C:"1",W:"1","b":0.5}
field timelineSpeedMultiplier <- {C:"1",S:null,W:5}
field contentTime <- {C:"",S:"1",W:5}
field timelineSpeedMultiplier <- {C:"1",S:"1",W:5}
field wallClockTime <- {C:"1000000000000000000",S:65,W:"-1"}
field wallClockTime <- {C:"1",S:1,W:"-0"}
field wallClockTime <- {C:"1",S:1}
field contentTime <- {}
range contentTime <- {C:"1000000000000000000",S:65,W:"9223372036854775808"}
range contentTime <- {C:"0000000000000000000",S:1,W:"1"}
range contentTime <- {C:"-0000000000000000001",S:99,W:"1"}
range timelineSpeedMultiplier <- {C:"1",S:65,W:"9223372036854775808"}
range timelineSpeedMultiplier <- {C:"1",S:-65,W:"1"}
range wallClockTime <- {C:"1",S:1,W:"9223372036854775808"}
range wallClockTime <- {C:"1",S:1,W:"10000000000000000000"}
range wallClockTime <- {C:"1",S:1,W:"00000000000000000001"}"#;

const PRESENTATIONS: &str =
    r#"{E:{C:"9",W:"10"},L:{C:"9",W:"11"}} <- {E:{C:"9",W:"10"},L:{C:"9",W:"11"}}
{E:{C:"9",W:"10"},L:{C:"0",W:"1"}} <- {L:{C:"0",W:"1"},A:null,E:{C:"9",W:"10"}}
{A:{C:"7",W:"8"},E:{C:"9",W:"10"},L:{C:"0",W:"1"}} <- {E:{C:"9",W:"10"},L:{C:"0",W:"1"},"b":0.5,A:{W:"8",C:"7"}}
{E:{C:"9",W:"minusinfinity"},L:{C:"0",W:"plusinfinity"}} <- {E:{C:"9",W:"minusinfinity"},L:{C:"0",W:"plusinfinity"}}
{E:{C:"7",W:"0"},L:{C:"0",W:"1"}} <- {E:{C:"007","private":[],W:"000"},L:{C:"-0",W:"1"},A:0.5}
{E:{C:"999999999999999999",W:"9223372036854775807"},L:{C:"-1",W:"0"}} <- {L:{C:"-1",W:"0"},
  E:{C:"999999999999999999",W:"9223372036854775807"}}
field earliest <- {}
field earliest <- {A:5,E:null,L:5}
field earliest <- {E:{C:"9",W:"plusinfinity"},L:5}
field latest <- {A:5,E:{C:"9",W:"10"},L:null}
field latest <- {A:5,E:{C:"9",W:"10"},L:{C:"9",W:"minusinfinity"}}
field actual <- {A:{C:"9",W:"minusinfinity"},E:{C:"9",W:"minusinfinity"},L:{C:"9",W:"10"}}
field actual <- {A:{C:"9",W:"plusinfinity"},E:{C:"9",W:"10"},L:{C:"9",W:"plusinfinity"}}
field latest <- {E:{C:"1000000000000000000",W:"1"},L:5}
field actual <- {A:5,E:{C:"1000000000000000000",W:"1"},L:{C:"1000000000000000000",W:"1"}}
range earliest <- {A:{C:"1000000000000000000",W:"1"},
  E:{C:"1000000000000000000",W:"1"},L:{C:"1000000000000000000",W:"1"}}
range earliest <- {E:{C:"-0000000000000000001",W:"minusinfinity"},L:{C:"9",W:"10"}}
range latest <- {A:{C:"1",W:"00000000000000000000"},E:{C:"9",W:"10"},L:{C:"1",W:"00000000000000000000"}}
range latest <- {E:{C:"9",W:"10"},L:{C:"1000000000000000000",W:"plusinfinity"}}
range actual <- {A:{C:"1000000000000000000",W:"99999999999999999999"},E:{C:"9",W:"10"},L:{C:"9",W:"10"}}"#;

/// A text with a member whose value is written `@`, and the fault of a value that has another form.
type Place = (Reader, &'static str, &'static str);

#[rattlefmt::skip]
const WORDS_AT: [Place; 10] = [
    (Reader::Message, r#"{"protocolVersion":@}"#, "field protocolVersion"),
    (Reader::Message, r#"{"mrsUrl":@}"#, "field mrsUrl"),
    (Reader::Message, r#"{"contentId":@}"#, "field contentId"),
    (Reader::Message, r#"{"contentIdStatus":@}"#, "field contentIdStatus"),
    (Reader::Message, r#"{"presentationStatus":@}"#, "field presentationStatus"),
    (Reader::Message, r#"{"wcUrl":@}"#, "field wcUrl"),
    (Reader::Message, r#"{"tsUrl":@}"#, "field tsUrl"),
    (Reader::Message, r#"{"teUrl":@}"#, "field teUrl"),
    (Reader::Setup, r#"{I:@,N:"a"}"#, "field contentIdStem"),
    (Reader::Setup, r#"{I:"",N:@}"#, "field timelineSelector"),
];

#[rattlefmt::skip]
const TIMES_AT: [Place; 8] = [
    (Reader::Control, r#"{C:@,S:1,W:"1"}"#, "field contentTime"),
    (Reader::Control, r#"{C:"1",S:1,W:@}"#, "field wallClockTime"),
    (Reader::Presentation, r#"{E:{C:@,W:"1"},L:{C:"9",W:"10"}}"#, "field earliest"),
    (Reader::Presentation, r#"{E:{C:"1",W:@},L:{C:"9",W:"10"}}"#, "field earliest"),
    (Reader::Presentation, r#"{A:5,E:{C:"9",W:"10"},L:{C:@,W:"1"}}"#, "field latest"),
    (Reader::Presentation, r#"{A:5,E:{C:"9",W:"10"},L:{C:"1",W:@}}"#, "field latest"),
    (Reader::Presentation, r#"{A:{C:@,W:"1"},E:{C:"9",W:"10"},L:{C:"9",W:"10"}}"#, "field actual"),
    (Reader::Presentation, r#"{A:{C:"1",W:@},E:{C:"9",W:"10"},L:{C:"9",W:"10"}}"#, "field actual"),
];

const TIMELINES_AT: [Place; 1] = [(Reader::Message, r#"{"timelines":@}"#, "field timelines")];

/// Values of other forms than words.
const NO_WORDS: &str = r#"5
-0
true
[]
["1"]
{}"#;

/// Words that are no time.
const NO_TIMES: &str = r#"""
"+1"
"1.0"
"1 "
"a"
"0x1"
"null"
"infinity"
"٣""#;

fn written(rt: &impl Abort, alloc: Global, text: Result<Text, Memory>) -> String {
    let text = text.expect(rt, "memory");
    words(&text).to_string(alloc).expect(rt, "memory")
}

fn in_words(rt: &impl Abort, alloc: Global, fault: &impl Display) -> String {
    format!(in alloc; "{fault}").expect(rt, "memory")
}

/// What is written of what a text is read as, or the fault.
fn outcome(rt: &impl Abort, alloc: Global, reader: Reader, text: &[u8]) -> String {
    match reader {
        Reader::Message => match read_message(alloc, text) {
            Ok(change) => written(rt, alloc, write_message(alloc, &change)),
            Err(fault) => in_words(rt, alloc, &fault),
        },
        Reader::Setup => match read_setup(alloc, text) {
            Ok(setup) => written(rt, alloc, write_setup(alloc, &setup)),
            Err(fault) => in_words(rt, alloc, &fault),
        },
        Reader::Control => match read_control(alloc, text) {
            Ok(control) => written(rt, alloc, write_control(alloc, &control)),
            Err(fault) => in_words(rt, alloc, &fault),
        },
        Reader::Presentation => match read_presentation(alloc, text) {
            Ok(presentation) => written(rt, alloc, write_presentation(alloc, &presentation)),
            Err(fault) => in_words(rt, alloc, &fault),
        },
    }
}

/// The text with the names in place of what stands for them.
fn with_names(rt: &impl Abort, alloc: Global, short: &str) -> String {
    let mut text = String::from_str(alloc, short).expect(rt, "memory");
    for (letter, name) in &NAMES {
        text = text.replace(alloc, letter, name).expect(rt, "memory");
    }
    text
}

fn check_text(rt: &impl Abort, alloc: Global, reader: Reader, text: &str, expected: &str) {
    let text = with_names(rt, alloc, text);
    let told = outcome(rt, alloc, reader, text.as_bytes());
    check(rt, &text, &told, &with_names(rt, alloc, expected));
}

fn check_rows(rt: &impl Abort, alloc: Global, reader: Reader, table: &str) {
    let rows = table.replace(alloc, "\n  ", "").expect(rt, "memory");
    for row in rows.lines() {
        let (expected, text) = row.split_once(" <- ").expect(rt, "an arrow");
        check_text(rt, alloc, reader, text, expected);
    }
}

#[test]
fn each_text_is_read_or_refused(rt: HostRuntime) {
    check_rows(&rt, rt.alloc(), Reader::Message, MESSAGES);
    check_rows(&rt, rt.alloc(), Reader::Setup, SETUPS);
    check_rows(&rt, rt.alloc(), Reader::Control, CONTROLS);
    check_rows(&rt, rt.alloc(), Reader::Presentation, PRESENTATIONS);
}

#[test]
fn texts_that_are_no_object_are_refused(rt: HostRuntime) {
    check_rows(&rt, rt.alloc(), Reader::Message, NO_OBJECTS);
    check_rows(&rt, rt.alloc(), Reader::Setup, NO_OBJECTS);
    check_rows(&rt, rt.alloc(), Reader::Control, NO_OBJECTS);
    check_rows(&rt, rt.alloc(), Reader::Presentation, NO_OBJECTS);
}

/// Each of the values is refused at each of the places.
fn check_places(rt: &impl Abort, alloc: Global, places: &[Place], values: &str) {
    for (reader, text, fault) in places {
        for value in values.lines() {
            let text = text.replace(alloc, "@", value).expect(rt, "memory");
            check_text(rt, alloc, *reader, &text, fault);
        }
    }
}

#[test]
fn values_of_other_forms_are_refused(rt: HostRuntime) {
    check_places(&rt, rt.alloc(), &WORDS_AT, NO_WORDS);
    check_places(&rt, rt.alloc(), &TIMES_AT, NO_WORDS);
    check_places(&rt, rt.alloc(), &TIMES_AT, NO_TIMES);
    let lists = NO_TIMELINES.replace(rt.alloc(), "*", r#"{N:"a",P:{T:1,U:50}}"#);
    check_places(&rt, rt.alloc(), &TIMELINES_AT, &lists.expect(&rt, "memory"));
}

#[rattlefmt::skip]
const CONTROL: Control = Control::Available { content: 900_000, wall: 10_000_000_000, speed: 1 };

#[test]
fn times_are_read_as_values(rt: HostRuntime) {
    let text = with_names(&rt, rt.alloc(), r#"{C:"900000",W:"10000000000",S:1.0}"#);
    let read = read_control(rt.alloc(), text.as_bytes());
    check_that(&rt, read == Ok(CONTROL), "a control");
    let text = r#"{E:{C:"900000",W:"10040000000"},L:{C:"900001",W:"plusinfinity"}}"#;
    let text = with_names(&rt, rt.alloc(), text);
    let presentation = Presentation {
        earliest: Bound::At {
            content: 900_000,
            wall: 10_040_000_000,
        },
        latest: Bound::PlusInfinity { content: 900_001 },
        actual: None,
    };
    let read = read_presentation(rt.alloc(), text.as_bytes());
    check_that(&rt, read == Ok(presentation), "a presentation");
}

#[test]
fn a_setup_is_read_as_a_value(rt: HostRuntime) {
    let short = r#"{N:"urn:dvb:css:timeline:pts",I:"dvb://"}"#;
    let text = with_names(&rt, rt.alloc(), short);
    let setup = read_setup(rt.alloc(), text.as_bytes()).expect(&rt, "a setup");
    check(&rt, "its stem", words(&setup.stem), "dvb://");
    let selector = words(&setup.selector);
    check(&rt, "its selector", selector, "urn:dvb:css:timeline:pts");
}

/// The words of the other faults stand with the statuses of commands.
#[test]
fn want_of_memory_and_names_are_told(rt: HostRuntime) {
    let (cii, ts, player) = (CiiFault::Memory, TsFault::Memory, PlayerFault::Memory);
    let (url, actual) = (CiiName::TsUrl, TsName::Actual);
    let told = format!(in rt.alloc(); "{cii}; {url}; {ts}; {actual}; {player}").expect(
        &rt, "memory",
    );
    let expected = "out of memory; tsUrl; out of memory; actual; out of memory";
    check(&rt, "faults", &told, expected);
}
