//! A plain second computation of a television and its TS sessions: what each event does, in words. The sessions are the
//! peers 0, 1 and so on.

ghost use Rattle.std.specs.Prelude.{◌≤◌};

use crate::common::{Dice, push_behind, shown};
use crate::tv_rows::{Event, Limit};
use css_player::Command;
use std::alloc::Global;
use std::process::Abort;

/// The greatest delay, in nanoseconds.
const MAX_DELAY: i128 = 10_000_000_000;

/// What is shown: at the wall clock value `at` the media position `media`, both in nanoseconds.
#[derive(Clone, Copy)]
struct Shown {
    programme: u32,
    at: i128,
    media: i128,
    speed: i32,
    delay: i128,
}

/// What a TS session is told: a content time, a speed and a wall time.
type Control = Option<(i128, i32, i128)>;

#[derive(Clone, Copy)]
enum Talk {
    Waiting,
    /// A session of this setup, what it was told last, and the least and the greatest delay that it asks for.
    Ts(usize, Control, Option<(i128, i128)>),
    Closed,
}

/// Setups, and whether the programmes with odd and with even numbers have their stem.
#[rattlefmt::skip]
const SETUPS: [(&str, bool, bool); 3] = [
    (r#"{"contentIdStem":"","timelineSelector":"urn:dvb:css:timeline:pts"}"#, true, true),
    (r#"{"contentIdStem":"dvb://1","timelineSelector":"urn:dvb:css:timeline:pts"}"#, true, false),
    (r#"{"contentIdStem":"dvb://2","timelineSelector":"urn:dvb:css:timeline:pts"}"#, false, true),
];

/// Which setup a text is, if it is one.
fn setup_of(text: &str) -> Option<usize> {
    for (place, (setup, _, _)) in SETUPS.iter().enumerate() {
        if *setup == text {
            return Some(place);
        }
    }
    None
}

/// A television: how many timelines each programme has, what is shown, and the sessions.
#[derive(Drop)]
pub struct Plain {
    timelines: Vec<u32>,
    shown: Option<Shown>,
    talks: Vec<Talk>,
    peers: u32,
    /// How often something is delayed after an event.
    pub delays: u32,
    /// How many sessions were closed.
    pub hung_up: u32,
}

/// The tick at a media position. There are 90,000 in a second.
fn tick(media: i128) -> i128 {
    let ticks = media.wrapping_mul(90_000).div_euclid(1_000_000_000);
    ticks.wrapping_add(900_000)
}

/// How much later than shown without a delay a bound is, in nanoseconds times the ticks of a second.
fn later(shown: Shown, (content, wall): (i64, u64)) -> i128 {
    let start = shown.at.wrapping_sub(shown.delay);
    let waited = i128::from(wall).wrapping_sub(start).wrapping_mul(90_000);
    let ticks = i128::from(content).wrapping_sub(tick(shown.media));
    waited.wrapping_sub(ticks.wrapping_mul(1_000_000_000))
}

/// The delays between two bounds, in whole nanoseconds.
fn window(shown: Shown, earliest: Limit, latest: Limit) -> (i128, i128) {
    let low = match earliest {
        None => 0,
        Some(bound) => {
            let sooner = later(shown, bound).wrapping_neg();
            sooner.div_euclid(90_000).wrapping_neg()
        }
    };
    let high = match latest {
        None => MAX_DELAY,
        Some(bound) => later(shown, bound).div_euclid(90_000),
    };
    (low, high)
}

/// Appends a control timestamp behind its peer.
fn push_control(rt: &impl Abort, alloc: Global, all: &mut String, peer: u32, control: Control) {
    let text = match control {
        None => format!(in alloc;
            "{{\"contentTime\":null,\"timelineSpeedMultiplier\":null,\"wallClockTime\":\"0\"}}"
        ),
        Some((content, speed, wall)) => format!(in alloc;
            "{{\"contentTime\":\"{content}\",\"timelineSpeedMultiplier\":{speed},\"wallClockTime\":\"{wall}\"}}"
        ),
    };
    push_behind(rt, all, peer, &text.expect(rt, "memory"));
}

/// What is shown after a command, unless nothing is.
fn commanded(shown: Option<Shown>, command: Command, at: i128) -> Option<Shown> {
    match command {
        Command::Change(programme) => Some(Shown {
            programme,
            at,
            media: 0,
            speed: 1,
            delay: 0,
        }),
        Command::Speed(speed) => {
            let shown = shown?;
            let gone = at
                .wrapping_sub(shown.at)
                .wrapping_mul(i128::from(shown.speed));
            let media = shown.media.wrapping_add(gone);
            Some(Shown {
                at,
                media,
                speed,
                ..shown
            })
        }
        Command::Seek(media) => Some(Shown {
            at,
            media: i128::from(media),
            ..shown?
        }),
    }
}

impl Plain {
    pub fn new(alloc: Global) -> Plain {
        Plain {
            timelines: Vec::new(alloc),
            shown: None,
            talks: Vec::new(alloc),
            peers: 0,
            delays: 0,
            hung_up: 0,
        }
    }

    fn count(&self, programme: u32) -> Option<u32> {
        self.timelines
            .get(programme.wrapping_sub(1) as usize)
            .copied()
    }

    fn talk(&self, peer: u32) -> Talk {
        self.talks
            .get(peer as usize)
            .copied()
            .unwrap_or(Talk::Closed)
    }

    fn set(&mut self, peer: u32, talk: Talk) {
        if let Some(place) = self.talks.get_mut(peer as usize) {
            *place = talk;
        }
    }

    /// What is told to sessions of this setup.
    fn control(&self, setup: usize) -> Control {
        let (_, of_odd, of_even) = SETUPS[setup % 3];
        let shown = self.shown?;
        let has_stem = (shown.programme % 2 == 1 && of_odd)
            || (shown.programme % 2 == 0 && of_even);
        if has_stem && self.count(shown.programme)? > 0 {
            Some((tick(shown.media), shown.speed, shown.at))
        } else {
            None
        }
    }

    /// Each session is told its control where that is another one.
    fn publish(&mut self, rt: &impl Abort, alloc: Global) -> String {
        let mut all = String::new(alloc);
        for peer in 0..self.peers {
            if let Talk::Ts(setup, last, window) = self.talk(peer) {
                let control = self.control(setup);
                self.set(peer, Talk::Ts(setup, control, window));
                if control != last {
                    push_control(rt, alloc, &mut all, peer, control);
                }
            }
        }
        all
    }

    fn command(
        &mut self,
        rt: &impl Abort,
        alloc: Global,
        command: Command,
        milliseconds: u32,
    ) -> String {
        let at = i128::from(milliseconds).wrapping_mul(1_000_000);
        let Some(shown) = commanded(self.shown, command, at) else {
            return "no programme".to_string(alloc).expect(rt, "memory");
        };
        self.shown = Some(shown);
        for talk in self.talks.iter_mut() {
            if let Talk::Ts(_, _, window) = talk {
                *window = None;
            }
        }
        self.publish(rt, alloc)
    }

    /// A setup, where the session waits for one. Any other text closes it.
    fn hear(&mut self, rt: &impl Abort, alloc: Global, peer: u32, text: &str) -> String {
        let mut all = String::new(alloc);
        if let (Some(setup), Talk::Waiting) = (setup_of(text), self.talk(peer)) {
            let control = self.control(setup);
            self.set(peer, Talk::Ts(setup, control, None));
            push_control(rt, alloc, &mut all, peer, control);
        } else {
            self.set(peer, Talk::Closed);
            self.hung_up = self.hung_up.saturating_add(1);
            push_behind(rt, &mut all, peer, "hang up");
        }
        all
    }

    /// What is shown has the least delay that all windows allow, if there is one, at speed 1 and unless it would begin
    /// before 0.
    fn choose(&mut self) {
        let mut low = 0;
        let mut high = MAX_DELAY;
        for talk in self.talks.iter() {
            if let Talk::Ts(_, _, Some((least, greatest))) = talk {
                low = low.max(*least);
                high = high.min(*greatest);
            }
        }
        if let Some(shown) = self.shown {
            let at = shown.at.wrapping_sub(shown.delay).wrapping_add(low);
            if low <= high && shown.speed == 1 && at >= 0 {
                let delay = low;
                self.shown = Some(Shown { at, delay, ..shown });
            }
        }
    }

    fn present(
        &mut self,
        rt: &impl Abort,
        alloc: Global,
        peer: u32,
        from: Limit,
        to: Limit,
    ) -> String {
        let Talk::Ts(setup, last, _) = self.talk(peer) else {
            return self.hear(rt, alloc, peer, "");
        };
        if let (Some(shown), Some(_)) = (self.shown, self.control(setup)) {
            self.set(peer, Talk::Ts(setup, last, Some(window(shown, from, to))));
        }
        self.choose();
        self.publish(rt, alloc)
    }

    /// Takes in an event that no session and no viewer tells.
    fn change(&mut self, rt: &impl Abort, event: Event) {
        match event {
            Event::Programme(_) => self.timelines.push(0).expect(rt, "memory"),
            Event::Timeline(programme, _) => {
                if let Some(count) = self.timelines.get_mut(programme.wrapping_sub(1) as usize) {
                    *count = count.saturating_add(1);
                }
            }
            Event::Ts(_) => {
                self.talks.push(Talk::Waiting).expect(rt, "memory");
                self.peers = self.peers.saturating_add(1);
            }
            Event::Closes(peer) => self.set(peer, Talk::Closed),
            _ => {}
        }
    }

    /// The delay of what is shown.
    fn delay(&self) -> Option<i128> {
        Some(self.shown?.delay)
    }

    /// What comes of an event, in words.
    pub fn outcome(&mut self, rt: &impl Abort, alloc: Global, event: Event) -> String {
        let told = match event {
            Event::Delay => shown(rt, alloc, &self.delay()),
            Event::Viewer(command, milliseconds) => self.command(rt, alloc, command, milliseconds),
            Event::Hears(peer, text) => self.hear(rt, alloc, peer, text),
            Event::Presents(peer, from, to) => self.present(rt, alloc, peer, from, to),
            _ => {
                self.change(rt, event);
                self.publish(rt, alloc)
            }
        };
        let is_delayed = self.delay().unwrap_or(0) > 0;
        self.delays = self.delays.saturating_add(u32::from(is_delayed));
        told
    }
}

/// A bound near what is shown, or none in half of all cases. Wall clock values are multiples of 10 ms.
fn drawn_limit(dice: &mut Dice, later: u32) -> Limit {
    if dice.next(2) == 0 {
        return None;
    }
    let wall = u64::from(dice.next(60).wrapping_add(later)) * 10_000_000;
    let moved = i64::from(dice.next(20));
    Some((moved.wrapping_mul(901).wrapping_add(895_000), wall))
}

fn drawn_command(dice: &mut Dice) -> Command {
    match dice.next(10) {
        0..=2 => Command::Change(dice.next(2) + 1),
        3 => Command::Speed(-1),
        4 => Command::Speed(0),
        5..=6 => Command::Speed(1),
        7 => Command::Speed(2),
        _ => Command::Seek(i64::from(dice.next(400_000_000)).wrapping_sub(200_000_000)),
    }
}

/// A text of a peer. One in 32 isn't JSON, and some come where none is awaited.
fn drawn_text(dice: &mut Dice, plain: &Plain, peer: u32) -> Event {
    if dice.next(32) == 0 {
        return Event::Hears(peer, "{");
    }
    match plain.talk(peer) {
        Talk::Waiting => Event::Hears(peer, SETUPS[dice.next(3) as usize].0),
        Talk::Ts(..) => Event::Presents(peer, drawn_limit(dice, 10), drawn_limit(dice, 20)),
        _ if dice.next(8) == 0 => Event::Hears(peer, SETUPS[0].0),
        _ => Event::Delay,
    }
}

/// The event of this number: at first four sessions, and two programmes with timelines.
pub fn drawn(dice: &mut Dice, plain: &Plain, number: u32) -> Event {
    let next = plain.peers;
    let peer = dice.next(next.max(1));
    match number {
        0..=3 => return Event::Ts(next),
        4 => return Event::Programme("dvb://1"),
        5 => return Event::Programme("dvb://2"),
        6..=7 => return Event::Timeline(number % 2 + 1, 900_000),
        _ => {}
    }
    match dice.next(32) {
        0..=2 => Event::Ts(next),
        5 => Event::Closes(peer),
        6 if plain.timelines.len() == 2 => Event::Programme("dvb://1"),
        7..=8 => Event::Timeline(dice.next(2) + 1, 900_000),
        9..=11 => Event::Viewer(drawn_command(dice), dice.next(40) * 10),
        _ => drawn_text(dice, plain, peer),
    }
}
