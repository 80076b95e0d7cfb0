use crate::common::{check, check_that};
use css_text::{
    Field, Map, TextFault, field_of, list, member, object, read_object, rewrite_numerals,
    write_value,
};
use serde_json::json;
use std::alloc::Global;
use std::process::Abort;

/// One text a line, behind what it reads as: `json` and `object` for the faults of these names, or how many of its
/// numerals are odd.
const TEXTS: &str = r#"object []
object [{}]
object "a"
object -0
object 1.5
object null
object [1.5,{"a":1}]
object 1E400
json 
json  
json {
json []]
json {}{}
json {} x
json {"a":}
json {"a":1
json {"a":1,}
json {"a" 1}
json {"a":1,,"b":2}
json {'a':1}
json {1:2}
json {"a":[1,]}
json {"a":{]}
json {/**/}
json {"a":"b}
0 {"a":null}
json {"a":tru}
json {"a":truee}
json {"a":NaN}
json {"a":-Infinity}
0 {"a":-0}
0 {"a":-0.0}
0 {"a":1.000}
0 {"a":999999999999999999}
1 {"a":1000000000000000000}
1 {"a":-1000000000000000000}
1 {"a":1000000000000000000.0}
1 {"a":1.50}
1 {"a":1e5}
1 {"a":1E+5}
1 {"a":0e0}
1 {"a":1e-400}
1 {"a":1.00000000000000000001}
json {"a":01}
json {"a":-01}
json {"a":+1}
json {"a":1.}
json {"a":.5}
json {"a":-}
json {"a":1e}
json {"a":1e+}
json {"a":1e1.0}
json {"a":1_000}
json {"a":0x10}
2 {"a":1.5,"a":2.5}
3 {"a":[1.5,2,3.0,4e0,-0.5]}
1 {"1.5":1.5}
1 {"a":"\\","b":1.5}
1 {"a":"\"","b":1.5}
1 {"a":"\\\"1e5","b":[1.5]}
0 {"a":"\\\"1.5"}
0 {"a":"\b\f\n\r\t\/\\\""}
0 {"a":"\u0000"}
0 {"a":"\uD834\udd1E"}
0 {"é":"日本𝄞"}
0 {"a":"[1.5"}
json {"a":"\ud800"}
json {"a":"\ud800x"}
json {"a":"\u12g4"}
json {"a":"\x41"}
json {"a":"\"}
0 {"a":1,"a":null}
0  {} 
0 { "a" : 1 , "b" : [ 1 , 2 ] }
0 {"a":[[[[]],{"b":null}]]}"#;

fn odd(alloc: Global, bytes: &[u8]) -> Result<u32, TextFault> {
    let read = read_object(alloc, bytes)?;
    Ok(read.odd)
}

fn check_odd(rt: &impl Abort, alloc: Global, bytes: &[u8], expected: Result<u32, TextFault>) {
    let (found, text) = (odd(alloc, bytes), str::from_utf8(bytes));
    assert!(rt; found == expected, "{text:?}: {found:?}");
}

fn expected(word: &str) -> Result<u32, TextFault> {
    match word {
        "json" => Err(TextFault::NotJson),
        "object" => Err(TextFault::NotObject),
        _ => Ok(word.parse().unwrap_or(u32::MAX)),
    }
}

#[test]
fn each_text_is_read_or_refused(rt: HostRuntime) {
    for line in TEXTS.lines() {
        let (word, text) = line.split_once(' ').expect(&rt, "a word");
        check_odd(&rt, rt.alloc(), text.as_bytes(), expected(word));
    }
}

/// Texts with other bytes, and how many of their numerals are odd.
const BYTES: [(&[u8], Result<u32, TextFault>); 12] = [
    (b"{\"a\":\"\x7f\"}", Ok(0)),
    (b"\t{\r\n}\t", Ok(0)),
    (b"{\"a\":\"\t\"}", Err(TextFault::NotJson)),
    (b"{\"a\x1f\":1}", Err(TextFault::NotJson)),
    (b"\xef\xbb\xbf{}", Err(TextFault::NotJson)),
    (b"\xc2\xa0{}", Err(TextFault::NotJson)),
    (b"{}\x0c", Err(TextFault::NotJson)),
    (b"\x00{}", Err(TextFault::NotJson)),
    (b"{\"a\":\"\xff\"}", Err(TextFault::NotJson)),
    (b"{\"a\":\"\xc0\x80\"}", Err(TextFault::NotJson)),
    (b"{\"a\":\"\xed\xa0\x80\"}", Err(TextFault::NotJson)),
    (b"\xff\xfe{\x00}\x00", Err(TextFault::NotJson)),
];

#[test]
fn bytes_beyond_printed_ascii_are_read_or_refused(rt: HostRuntime) {
    for (bytes, expected) in &BYTES {
        check_odd(&rt, rt.alloc(), bytes, *expected);
    }
}

const MANY: usize = 1 << 18;

/// A text in which two parts stand so often one after the other, and how many of its numerals are odd.
#[rattlefmt::skip]
type Long = (&'static str, (&'static str, &'static str), usize, &'static str, Result<u32, TextFault>);

const LONG: [Long; 7] = [
    ("{\"a\":", ("[", "]"), 126, "}", Ok(0)),
    ("{\"a\":", ("[", "]"), 127, "}", Err(TextFault::NotJson)),
    ("", ("[", ""), MANY, "", Err(TextFault::NotJson)),
    ("{\"a\":", ("7", ""), MANY, "}", Ok(1)),
    ("{\"a\":1.", ("0", ""), MANY, "}", Ok(0)),
    ("{\"a\":[0.5", (",0.5", ""), 65_536, "]}", Ok(65_537)),
    ("{\"a\":\"", ("1.5 ", ""), 65_536, "\"}", Ok(0)),
];

fn long_text(rt: &impl Abort, alloc: Global, row: &Long) -> String {
    let (before, (first, second), count, after, _) = row;
    let first = first.repeat(alloc, *count).expect(rt, "memory");
    let second = second.repeat(alloc, *count).expect(rt, "memory");
    format!(in alloc; "{before}{first}{second}{after}").expect(rt, "memory")
}

#[test]
fn long_texts_are_read_or_refused(rt: HostRuntime) {
    for row in &LONG {
        let text = long_text(&rt, rt.alloc(), row);
        assert!(rt; odd(rt.alloc(), text.as_bytes()) == row.4, "{row:?}");
    }
}

/// A text, what it is rewritten as, and how many of its numerals are odd.
#[rattlefmt::skip]
const REWRITTEN: [(&str, &str, u32); 7] = [
    ("", "", 0),
    ("-0.00", "0", 0),
    ("-7.0", "-7", 0),
    ("1e5 -1E-2 1234567890123456789", "null null null", 3),
    ("01 1. .5 +1 - true e E", "01 1. .5 +1 - true e E", 0),
    (r#"{"a 1.0":1.0,"e\"2.0":[2.5]}"#, r#"{"a 1.0":1,"e\"2.0":[null]}"#, 1),
    (r#""\\"1.0"1.0\"#, r#""\\"1"1.0\"#, 0),
];

#[test]
fn numerals_are_rewritten_outside_strings(rt: HostRuntime) {
    for (text, whole, odd) in &REWRITTEN {
        let told = rewrite_numerals(rt.alloc(), text.as_bytes()).expect(&rt, "memory");
        check(&rt, told.text.bytes(), whole.as_bytes());
        check_that(&rt, told.odd == *odd, text);
    }
}

/// Whether the member of this name is the words `x`.
fn is_x(rt: &impl Abort, alloc: Global, map: &Map, name: &str) -> bool {
    match field_of(alloc, map, name).expect(rt, "memory") {
        Field::Words(words) => words.bytes() == b"x".as_slice(),
        _ => false,
    }
}

/// How many items a list has, where it is one.
fn count_in(map: &Map, name: &str) -> Option<usize> {
    Some(list(map, name)?.len())
}

/// How many members an object within the object has, where it is one.
fn members_in(map: &Map, name: &str) -> Option<usize> {
    Some(object(member(map, name)?)?.len())
}

#[test]
fn members_are_found(rt: HostRuntime) {
    let text = br#"{"half":0.5,"list":[1,{}],"object":{"b":null},"twice":1,"twice":"x"}"#;
    let map = read_object(rt.alloc(), text).expect(&rt, "an object").map;
    check_that(&rt, count_in(&map, "list") == Some(2), "a list");
    check_that(&rt, count_in(&map, "object").is_none(), "no list");
    check_that(&rt, members_in(&map, "object") == Some(1), "an object");
    check_that(&rt, members_in(&map, "list").is_none(), "no object");
    let (twice, half) = (
        is_x(&rt, rt.alloc(), &map, "twice"),
        is_x(&rt, rt.alloc(), &map, "half"),
    );
    check_that(&rt, twice && !half, "the last of both, and no words");
}

#[test]
fn values_are_written_compactly(rt: HostRuntime) {
    let value = json!(in rt.alloc(); {"b": [1, null, "x\"\n", []], "a": {"d": -7, "c": {}}});
    let text = write_value(rt.alloc(), &value.expect(&rt, "memory")).expect(&rt, "memory");
    let expected = br#"{"a":{"c":{},"d":-7},"b":[1,null,"x\"\n",[]]}"#;
    check(&rt, text.bytes(), expected);
}
