//! The lines that seeds give, as another program made them.

use crate::common::check_that;
use css_gen::Generator;
use css_num::whole_number;
use std::alloc::Global;
use std::process::Abort;

/// A seed, how many lines and how many companions, and the last lines of this schedule, with ";" between two:
/// whole schedules; both clocks slow, both fast, and one of each; each verb; and longer schedules.
const ENDS: &str = "\
1 9 1 css-schedule 1 follow 12800 -20 12800 1000 urn:dvb:css:timeline:pts dvb://;\
0 1000000000 1000000000 programme dvb://1.2.3;0 1000000000 1000000000 timeline 1 urn:dvb:css:timeline:pts 1 90000 0;\
0 1000000000 1000000000 change 1000000000 1;0 1000000000 1000000000 open cii;0 1000000000 1000000000 text cii;\
0 1000000000 1000000000 open ts;0 1000000000 1000000000 up ts;0 1000000000 1000000000 text ts
1 40 2 css-schedule 2 follow 12800 -20 2;companion 1 12800 1000 urn:dvb:css:timeline:pts dvb://;\
companion 2 12800 1000 urn:dvb:css:timeline:pts dvb://;0 1000000000 0 0 programme dvb://1.2.3;\
0 1000000000 0 0 timeline 1 urn:dvb:css:timeline:pts 1 90000 0;0 1000000000 0 0 change 1000000000 1;\
0 1000000000 1 1000000000 open cii;0 1000000000 1 1000000000 text cii;0 1000000000 1 1000000000 open ts;\
0 1000000000 1 1000000000 up ts;0 1000000000 1 1000000000 text ts;0 1000000000 2 1000000000 open cii;\
0 1000000000 2 1000000000 text cii;0 1000000000 2 1000000000 open ts;0 1000000000 2 1000000000 up ts;\
0 1000000000 2 1000000000 text ts;8543984 1008544411 2 1008543556 sleep;10655768 1010656300 1 1010656300 sleep;\
15854304 1015855096 2 1015853511 sleep;18421927 1018422848 1 1018422848 print 1018422848;\
21466235 1021467308 1 1021467308 ask 1021467308;24195296 1024196505 2 1024194086 ask 1024194086;\
31791439 1031793028 2 1031789849 ask 1031789849;38092862 1038094766 0 0 take 2 1038094766;\
41738477 1041740563 0 0 give 1 1041740563;41969528 1041971626 1 1041971626 ask 1041971626;\
49253224 1049255686 2 1049250761 sleep;56128658 1056131464 2 1056125851 land 2 1056125851;\
56877600 1056880443 0 0 take 2 1056880443;60781044 1060784083 2 1060778004 sleep;\
68407883 1068411303 2 1068404462 sleep;70836409 1070839950 1 1070839950 print 1070839950;\
76492583 1076496407 2 1076488758 ask 1076488758;81452229 1081456301 1 1081456301 ask 1081456301;\
85052675 1085056927 2 1085048422 land 2 1085048422;87101746 1087106101 1 1087106101 ask 1087106101;\
88407420 1088411840 2 1088402999 ask 1088402999;93023575 1093028226 2 1093018923 land 2 1093018923;\
93313151 1093317816 0 0 give 2 1093317816;97605144 1097610024 1 1097610024 sleep
1 16 2 0 1000000000 2 1000000000 text ts
0 12 1 3111875 1003111719 1003111719 print 1003111719;10595150 1010594620 1010594620 ask 1010594620;\
17392460 1017391590 1017391590 print 1017391590
1 12 1 1660417 1001660500 1001660500 ask 1001660500;3212652 1003212812 1003212812 ask 1003212812;\
5324436 1005324702 1005324702 ask 1005324702
2 12 1 4777897 1004778135 1004777658 print 1004777658;8619589 1008620019 1008619158 ask 1008619158;\
11611222 1011611802 1011610641 ask 1011610641
9223372036854775807 12 1 2464698 1002464574 1002464821 ask 1002464821;\
4814253 1004814012 1004814493 print 1004814493;7901962 1007901566 1007902357 take 1 1007901566
1 15 1 22780402 1022781541 1022781541 take 4 1022781541
1 23 1 50607001 1050609531 1050609531 give 1 1050609531
1 26 1 66081499 1066084803 1066084803 land 2 1066084803;72956933 1072960580 1072960580 land 1 1072960580
1 1000 1 4519836317 5520062308 5520062308 print 5520062308
1 2000 16 8490068451 9490492954 9 9490492954 ask 9490492954
3 20000 3 90365682872 91361164587 3 91370201156 land 4297 91370201156
9223372036854775807 5000 7 22477870522 23476746628 6 23476746628 land 1050 23476746628";

/// Seeds, numbers of lines and of companions, and how many bytes these schedules have, and the sum of these.
const SUMS: [(u64, u64, u64, usize, u64); 3] = [
    (1, 2000, 16, 98168, 5319444),
    (3, 20_000, 3, 1064649, 57272553),
    (9_223_372_036_854_775_807, 5000, 7, 258250, 13878894),
];

/// Adds the next line and its line feed. There has to be one.
fn add_line(rt: &impl Abort, alloc: Global, lines: &mut Generator, out: &mut Vec<u8>) {
    let line = lines.next_line(alloc).expect(rt, "memory");
    let text = line.expect(rt, "there is a line more");
    out.extend_from_slice(text.bytes()).expect(rt, "memory");
    out.push(b'\n').expect(rt, "memory");
}

/// A whole schedule. It has so many lines and no more, however often one is asked for.
fn schedule(rt: &impl Abort, alloc: Global, seed: u64, lines: u64, companions: u64) -> Vec<u8> {
    assert!(rt; 1 <= companions && companions <= 16 && lines <= 200_000);
    let least = if companions == 1 {
        9
    } else {
        4 + 6 * companions
    };
    assert!(rt; least <= lines);
    let mut generator = Generator::new(alloc, seed, lines, companions as u32);
    let mut out = Vec::new(alloc);
    for _ in 0..lines {
        add_line(rt, alloc, &mut generator, &mut out);
    }
    for _ in 0..2 {
        let line = generator.next_line(alloc).expect(rt, "memory");
        check_that(rt, line.is_none(), "there is no line more");
    }
    out
}

/// The next number of a row, and what comes after it.
fn number(row: &str) -> Option<(u64, &str)> {
    let (number, rest) = row.split_once(' ')?;
    Some((whole_number(number.as_bytes(), u64::MAX)?, rest))
}

/// The schedule of a row ends as the row says.
fn check_end(rt: &impl Abort, alloc: Global, row: &str) {
    let (seed, rest) = number(row).expect(rt, "a seed");
    let (lines, rest) = number(rest).expect(rt, "lines");
    let (companions, end) = number(rest).expect(rt, "companions");
    let mut end = end.replace(alloc, ';', "\n").expect(rt, "memory");
    end.push('\n').expect(rt, "memory");
    let schedule = schedule(rt, alloc, seed, lines, companions);
    check_that(rt, schedule.ends_with(end.as_bytes()), row);
}

#[test]
fn schedules_end_so(rt: HostRuntime) {
    for row in ENDS.lines() {
        check_end(&rt, rt.alloc(), row);
    }
}

#[test]
fn the_longest_schedule_ends_so(rt: HostRuntime) {
    let row = "1 200000 1 902836863662 903882005505 903882005505 give 24667 903882005505";
    check_end(&rt, rt.alloc(), row);
}

#[test]
fn the_longest_schedule_of_several_ends_so(rt: HostRuntime) {
    let row = "1 200000 16 905906003980 906951299280 9 906951299280 sleep";
    check_end(&rt, rt.alloc(), row);
}

#[test]
fn longer_schedules_have_their_sums(rt: HostRuntime) {
    for (seed, lines, companions, bytes, sum) in &SUMS {
        let schedule = schedule(&rt, rt.alloc(), *seed, *lines, *companions);
        let mut total: u64 = 0;
        for byte in schedule.iter() {
            total = total.wrapping_add(u64::from(*byte));
        }
        check_that(&rt, schedule.len() == *bytes && total == *sum, "its bytes");
    }
}
