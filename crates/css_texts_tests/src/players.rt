//! The television's player.
ghost use Rattle.std.specs.Prelude.{◌≤◌};

use crate::common::{check_that, next_word};
use css_num::{Control, Rate};
use css_player::{Command, Player, PlayerFault, Segment};
use std::alloc::Global;
use std::process::Abort;

const PTS: &[u8] = b"urn:dvb:css:timeline:pts";

#[rattlefmt::skip]
const STAMPS: Rate = Rate { units_per_tick: 1, units_per_second: 90_000 };

const OTHER: &[u8] = b"urn:x:1";

#[rattlefmt::skip]
const FILM: Rate = Rate { units_per_tick: 1, units_per_second: 25 };

/// The greatest position and the greatest base tick either way.
const FAR: i64 = 100_000_000_000_000_000;

/// The greatest reading.
const LAST: u64 = 4_294_967_295_999_999_999;

/// The content time, the wall time and the speed of a timeline's control timestamp, where it is available.
fn told(player: &Player, selector: &[u8]) -> Told {
    told_behind(player, "dvb", selector)
}

/// The same to a session with this stem.
fn told_behind(player: &Player, stem: &str, selector: &[u8]) -> Told {
    match player.control(stem.as_bytes(), selector) {
        Control::Available {
            content,
            wall,
            speed,
        } => Some((content, wall, speed)),
        Control::Unavailable => None,
    }
}

/// What comes of a command.
fn did(player: &mut Player, command: Command, reading: u64) -> Result<(), PlayerFault>
    requires { reading ≤ LAST }
{
    player.command(command, reading)
}

/// What comes of a timeline of 25 ticks a second.
fn added(player: &mut Player, alloc: Global, programme: u32, base: i64) -> Result<(), PlayerFault> {
    player.add_timeline(alloc, programme, OTHER, FILM, base)
}

/// A player of the programme `dvb://1` with a PTS timeline.
fn loaded(rt: &impl Abort, alloc: Global) -> Player {
    let mut player = Player::new(alloc);
    let number = player.add_programme(alloc, b"dvb://1");
    check_that(rt, number == Ok(1), "a programme");
    let added = player.add_timeline(alloc, 1, PTS, STAMPS, 900_000);
    added.expect(rt, "a timeline");
    player
}

/// A content time, a wall time and a speed, where there are some.
type Told = Option<(i64, u64, i32)>;

/// A command, its reading, what comes of it, and the control timestamp after it.
type Step = (Command, u64, Result<(), PlayerFault>, Told);

#[rattlefmt::skip]
const STEPS: [Step; 17] = [
    (Command::Speed(65), 0, Err(PlayerFault::NoProgramme), None),
    (Command::Change(0), 0, Err(PlayerFault::NoProgramme), None),
    (Command::Change(1), 5_000_000_000, Ok(()), Some((900_000, 5_000_000_000, 1))),
    (Command::Speed(0), 5_020_000_000, Ok(()), Some((901_800, 5_020_000_000, 0))),
    (Command::Seek(-1), 6_000_000_000, Ok(()), Some((899_999, 6_000_000_000, 0))),
    (Command::Speed(-64), 7_000_000_000, Ok(()), Some((899_999, 7_000_000_000, -64))),
    (Command::Speed(1), 8_000_000_000, Ok(()), Some((-4_860_001, 8_000_000_000, 1))),
    (Command::Change(1), 0, Ok(()), Some((900_000, 0, 1))),
    (Command::Seek(FAR), 0, Ok(()), Some((9_000_000_900_000, 0, 1))),
    (Command::Change(0), 1, Err(PlayerFault::NoProgramme), Some((9_000_000_900_000, 0, 1))),
    (Command::Speed(65), 1, Err(PlayerFault::Speed), Some((9_000_000_900_000, 0, 1))),
    (Command::Speed(i32::MIN), 1, Err(PlayerFault::Speed), Some((9_000_000_900_000, 0, 1))),
    (Command::Speed(0), 1, Err(PlayerFault::Range), Some((9_000_000_900_000, 0, 1))),
    (Command::Seek(FAR + 1), 1, Err(PlayerFault::Range), Some((9_000_000_900_000, 0, 1))),
    (Command::Speed(-64), 0, Ok(()), Some((9_000_000_900_000, 0, -64))),
    (Command::Seek(-FAR), LAST, Ok(()), Some((-8_999_999_100_000, LAST, -64))),
    (Command::Seek(FAR), LAST, Ok(()), Some((9_000_000_900_000, LAST, -64))),
];

/// What comes of each step is what it says.
fn check_steps(rt: &impl Abort, player: &mut Player, steps: &[Step]) {
    for (command, reading, done, published) in steps {
        assert!(rt; *reading <= LAST);
        let came = (did(player, *command, *reading), told(player, PTS));
        assert!(rt;
            came == (*done, *published),
            "{command:?} at {reading}: {came:?}"
        );
    }
}

#[test]
fn a_command_is_done_or_refused(rt: HostRuntime) {
    check_steps(&rt, &mut loaded(&rt, rt.alloc()), &STEPS);
}

/// The start and the delay of what is shown, after another delay.
fn delayed(player: &mut Player, delay: u64) -> Option<(i128, u64)>
    requires { delay ≤ 10000000000 }
{
    player.delay(delay);
    let segment = player.segment()?;
    Some((segment.at, segment.delay))
}

/// A delay, and the start and the delay of what is shown then. It never begins before 0.
#[rattlefmt::skip]
const DELAYS: [(u64, Option<(i128, u64)>); 3] =
    [(6, Some((3, 10))), (7, Some((0, 7))), (10_000_000_000, Some((9_999_999_993, 10_000_000_000)))];

#[test]
fn a_delay_turns_the_segment(rt: HostRuntime) {
    let mut player = loaded(&rt, rt.alloc());
    check_that(&rt, delayed(&mut player, 10).is_none(), "nothing is shown");
    did(&mut player, Command::Change(1), 0).expect(&rt, "a change");
    let later = delayed(&mut player, 10) == Some((10, 10));
    check_that(
        &rt,
        later && told(&player, PTS) == Some((900_000, 10, 1)),
        "it begins later",
    );
    did(&mut player, Command::Speed(2), 3).expect(&rt, "a speed");
    for (delay, expected) in DELAYS {
        assert!(rt; delay <= 10_000_000_000);
        assert!(rt;
            delayed(&mut player, delay) == expected,
            "a delay of {delay}"
        );
    }
}

/// The parts of a rate, a base tick, a media position, and its tick.
#[rattlefmt::skip]
const TICKS: [(u32, u32, i64, i64, i64); 5] = [
    (1, 1_000_000_000, FAR, FAR, 2 * FAR),
    (1_000_000_000, 1, -FAR, -FAR, -FAR - 1),
    (1, 90_000, 0, -1, -1),
    (1, 90_000, 0, 11_111, 0),
    (1, 90_000, 0, 11_112, 1),
];

/// The control timestamp at a media position of a timeline that is added to a player.
fn control_at(rt: &impl Abort, alloc: Global, rate: Rate, base: i64, media: i64) -> Told {
    let mut player = loaded(rt, alloc);
    let added = player.add_timeline(alloc, 1, OTHER, rate, base);
    added.expect(rt, "a timeline");
    did(&mut player, Command::Change(1), 0).expect(rt, "a change");
    did(&mut player, Command::Seek(media), 7).expect(rt, "a seek");
    check_that(rt, player.rate(OTHER) == Some(rate), "its rate");
    told(&player, OTHER)
}

#[test]
fn ticks_stay_whole_at_any_rate(rt: HostRuntime) {
    for (units_per_tick, units_per_second, base, media, content) in TICKS {
        let rate = Rate::of(units_per_tick, units_per_second).expect(&rt, "a rate");
        let control = control_at(&rt, rt.alloc(), rate, base, media);
        assert!(rt; control == Some((content, 7, 1)), "{content}");
    }
}

/// A programme, a base tick, and what comes of a timeline with it where sixteen are there.
#[rattlefmt::skip]
const REFUSED: [(u32, i64, PlayerFault); 5] = [
    (0, 0, PlayerFault::NoProgramme),
    (2, FAR + 1, PlayerFault::NoProgramme),
    (1, FAR + 1, PlayerFault::Range),
    (1, i64::MIN, PlayerFault::Range),
    (1, -FAR, PlayerFault::Full),
];

#[test]
fn a_timeline_is_refused(rt: HostRuntime) {
    let mut player = loaded(&rt, rt.alloc());
    for _ in 1..16 {
        added(&mut player, rt.alloc(), 1, FAR).expect(&rt, "a timeline");
    }
    for (programme, base, fault) in REFUSED {
        let refused = added(&mut player, rt.alloc(), programme, base);
        assert!(rt; refused == Err(fault), "{programme}, {base}");
    }
}

#[test]
fn a_thousand_programmes_are_full(rt: HostRuntime) {
    let mut player = Player::new(rt.alloc());
    for number in 1..1001 {
        let added = player.add_programme(rt.alloc(), b"dvb://1");
        check_that(&rt, added == Ok(number), "a programme");
    }
    let added = player.add_programme(rt.alloc(), b"");
    check_that(&rt, added == Err(PlayerFault::Full), "one too many");
    did(&mut player, Command::Change(1000), 0).expect(&rt, "the last one");
}

/// How many timelines are told, and the rate of the last one.
fn timelines_told(rt: &impl Abort, alloc: Global, player: &Player) -> Option<(usize, Rate)> {
    let timelines = player.timelines(alloc).expect(rt, "memory")?;
    let list = timelines.list();
    Some((list.len(), list.last()?.rate))
}

/// Of two timelines with one selector the first counts.
#[test]
fn what_is_shown_is_told(rt: HostRuntime) {
    let mut player = loaded(&rt, rt.alloc());
    let timelines = timelines_told(&rt, rt.alloc(), &player);
    let is_told = player.content_id().is_some() || player.rate(PTS).is_some();
    check_that(&rt, !is_told && timelines.is_none(), "nothing");
    added(&mut player, rt.alloc(), 1, 7).expect(&rt, "a timeline");
    added(&mut player, rt.alloc(), 1, 8).expect(&rt, "a timeline");
    did(&mut player, Command::Change(1), 0).expect(&rt, "a change");
    let name = b"dvb://1".as_slice();
    check_that(&rt, player.content_id() == Some(name), "its name");
    let first = told(&player, OTHER);
    check_that(&rt, first == Some((7, 0, 1)), "the first of both");
    check_that(&rt, told(&player, b"urn:x:2").is_none(), "no such timeline");
    for (stem, has_it) in [("dvb://1", true), ("dvb://12", false), ("//1", false)] {
        let control = told_behind(&player, stem, PTS);
        check_that(&rt, control.is_some() == has_it, stem);
    }
    let timelines = timelines_told(&rt, rt.alloc(), &player);
    check_that(&rt, timelines == Some((3, FILM)), "the timelines");
}

#[test]
fn a_copy_goes_its_own_way(rt: HostRuntime) {
    let mut player = loaded(&rt, rt.alloc());
    did(&mut player, Command::Change(1), 5).expect(&rt, "a change");
    let before = player.segment();
    let copy = player.copy().expect(&rt, "memory");
    did(&mut player, Command::Speed(0), 9).expect(&rt, "a speed");
    check_that(&rt, copy.segment() == before, "the copy");
    player.put_back(before);
    check_that(&rt, player.segment() == before, "the player");
}

/// A plain player: what is shown now is moved on from event to event, whatever the event is.
#[derive(Clone, Copy, PartialEq)]
struct Plain {
    shown: i128,
    at: i128,
    speed: i32,
    programme: u32,
    delay: u64,
}

/// The plain player after some nanoseconds.
fn passed(plain: Plain, elapsed: i128) -> Plain {
    let travelled = elapsed.wrapping_mul(i128::from(plain.speed));
    Plain {
        shown: plain.shown.wrapping_add(travelled),
        ..plain
    }
}

fn plain_command(plain: Option<Plain>, command: Command, reading: u64) -> Option<Plain> {
    let at = i128::from(reading);
    match command {
        Command::Change(programme) if 1 <= programme && programme <= 2 => Some(Plain {
            shown: 0,
            at,
            speed: 1,
            programme,
            delay: 0,
        }),
        Command::Speed(speed) if -64 <= speed && speed <= 64 => {
            let plain = plain?;
            Some(Plain { at, speed, ..plain })
        }
        Command::Seek(media) => {
            let shown = i128::from(media);
            let plain = plain?;
            Some(Plain { shown, at, ..plain })
        }
        _ => plain,
    }
}

fn plain_delay(plain: Plain, delay: u64) -> Plain {
    let later = i128::from(delay).wrapping_sub(i128::from(plain.delay));
    let at = plain.at.wrapping_add(later);
    if at < 0 {
        return plain;
    }
    let turned = passed(plain, later.wrapping_neg());
    Plain {
        at,
        delay,
        ..turned
    }
}

fn drawn_command(word: u64) -> Command {
    match word % 3 {
        0 => Command::Change((word / 3 % 4) as u32),
        1 => Command::Speed((word / 3 % 140) as i32 - 70),
        _ => Command::Seek((word / 3 % 2000) as i64 - 1000),
    }
}

/// Both players after one drawn event at a reading.
fn step(player: &mut Player, plain: Option<Plain>, word: u64, reading: u64) -> Option<Plain>
    requires { reading ≤ LAST }
{
    if word % 3 == 0 {
        let delay = word / 3 % 50;
        player.delay(delay);
        Some(plain_delay(plain?, delay))
    } else {
        let command = drawn_command(word / 3);
        let _ = did(player, command, reading);
        plain_command(plain, command, reading)
    }
}

/// The plain player of a segment at a reading.
fn plain_of(segment: Option<Segment>, reading: u64) -> Option<Plain> {
    let segment = segment?;
    let at_its_start = Plain {
        shown: segment.media,
        at: segment.at,
        speed: segment.speed,
        programme: segment.programme,
        delay: segment.delay,
    };
    let elapsed = i128::from(reading).wrapping_sub(segment.at);
    Some(passed(at_its_start, elapsed))
}

/// Forty events, ten nanoseconds apart.
fn play(rt: &impl Abort, player: &mut Player, seed: u64) {
    let mut plain = None;
    let mut word = seed;
    for i in 0..40 {
        word = next_word(word);
        if let Some(before) = plain {
            plain = Some(passed(before, 10));
        }
        plain = step(player, plain, word >> 33, i * 10);
        let shown = plain_of(player.segment(), i * 10);
        assert!(rt; shown == plain, "event {i} of {seed}");
    }
}

#[test]
fn shows_what_a_plain_player_shows(rt: HostRuntime) {
    for seed in 0..100 {
        let mut player = loaded(&rt, rt.alloc());
        player
            .add_programme(rt.alloc(), b"dvb://2")
            .expect(&rt, "a programme");
        play(&rt, &mut player, seed);
    }
}
