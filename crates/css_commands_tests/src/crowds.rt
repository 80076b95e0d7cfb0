//! Drawn schedules of a television and several companions, and what a replay of each is to print.

use crate::crowd_clocks::{Clock, draw};
use crate::crowd_second::{Second, index};
use rand_core::SeedableRng;
use rand_pcg::Lcg64Xsh32;
use std::alloc::{AllocError, Global};

/// What a schedule is drawn by: how many of eight turns ask anew, and how many turns come after the opening. Each adds
/// a line at most.
#[derive(Clone, Copy)]
pub(crate) struct Plan {
    pub(crate) name: &'static str,
    pub(crate) seed: u64,
    pub(crate) companions: u32,
    pub(crate) follow: bool,
    pub(crate) asks: u32,
    pub(crate) turns: u32,
}

/// What the opening says of each companion.
const SESSIONS: [&str; 5] = ["open cii", "text cii", "open ts", "up ts", "text ts"];

/// One of the newest three of a list, which leaves it.
fn picked(words: &mut Lcg64Xsh32, list: &mut Vec<(u64, u64)>) -> Option<(u64, u64)> {
    let last = list.len().checked_sub(1)?;
    let place = last.saturating_sub(draw(words, 3) as usize);
    if place < list.len() {
        Some(list.remove(place))
    } else {
        None
    }
}

/// A schedule that is being drawn.
#[derive(Drop)]
pub(crate) struct Crowd {
    words: Lcg64Xsh32,
    plan: Plan,
    time: u64,
    television: Clock,
    /// Those of the companions.
    clocks: Vec<Clock>,
    /// The requests, takes and datagrams that are on their way, each behind its companion.
    requests: Vec<(u64, u64)>,
    takes: Vec<(u64, u64)>,
    datagrams: Vec<(u64, u64)>,
    second: Second,
    /// The reading at which the programme began.
    began: u64,
    /// The number of the last line.
    number: u64,
    pub(crate) schedule: String,
    pub(crate) printed: String,
    pub(crate) prints: u64,
    pub(crate) intervals: u64,
    pub(crate) sleeps: u64,
}

impl Crowd {
    pub(crate) fn new(alloc: Global, plan: Plan) -> Crowd {
        let mut words = Lcg64Xsh32::seed_from_u64(plan.seed);
        let television = Clock::new(&mut words, 954);
        Crowd {
            words,
            plan,
            time: 0,
            television,
            clocks: Vec::new(alloc),
            requests: Vec::new(alloc),
            takes: Vec::new(alloc),
            datagrams: Vec::new(alloc),
            second: Second::new(alloc, plan.follow),
            began: 0,
            number: 1,
            schedule: String::new(alloc),
            printed: String::new(alloc),
            prints: 0,
            intervals: 0,
            sleeps: 0,
        }
    }

    /// Draws the whole schedule.
    pub(crate) fn draw(&mut self, alloc: Global) -> Result<(), AllocError> {
        self.write_header(alloc)?;
        self.open()?;
        for _ in 0..self.plan.turns {
            self.next()?;
        }
        Ok(())
    }

    /// Each end declares an error of 50 ppm. The television's precision is 954 ns, a companion's 1,000 ns.
    fn write_header(&mut self, alloc: Global) -> Result<(), AllocError> {
        let mode = if self.plan.follow { "follow" } else { "plain" };
        let companions = self.plan.companions;
        writeln!(
            self.schedule,
            "css-schedule 2 {mode} 12800 -20 {companions}"
        )?;
        for _ in 0..companions {
            let who = self.number;
            writeln!(
                self.schedule,
                "companion {who} 12800 1000 urn:dvb:css:timeline:pts dvb://"
            )?;
            self.number = self.number.wrapping_add(1);
            self.second.add_companion(alloc)?;
            self.clocks.push(Clock::new(&mut self.words, 1000))?;
        }
        Ok(())
    }

    /// The opening: a programme with one timeline is shown, and each companion has both sessions and all their texts.
    fn open(&mut self) -> Result<(), AllocError> {
        self.line(0, "programme dvb://1")?;
        self.line(0, "timeline 1 urn:dvb:css:timeline:pts 1 90000 900000")?;
        self.began = self.read_television();
        self.begin(0)?;
        writeln!(self.schedule, "change {} 1", self.began)?;
        for words in SESSIONS {
            self.line_each(words)?;
        }
        Ok(())
    }

    fn line_each(&mut self, words: &str) -> Result<(), AllocError> {
        for others in 0..self.plan.companions {
            self.line(u64::from(others).wrapping_add(1), words)?;
        }
        Ok(())
    }

    /// Some time passes, and something happens to a companion: a sleep once in a hundred times, a print in 27.
    fn next(&mut self) -> Result<(), AllocError> {
        let longest = match draw(&mut self.words, 4) {
            0 => 100,
            1 => 10_000,
            2 => 1_000_000,
            _ => 100_000_000,
        };
        let passed = draw(&mut self.words, longest);
        self.time = self.time.wrapping_add(2).wrapping_add(u64::from(passed));
        let who = u64::from(draw(&mut self.words, self.plan.companions)).wrapping_add(1);
        match draw(&mut self.words, 100) {
            0 => self.sleep(who),
            1..=18 => self.print(who, true),
            19..=27 => self.print(who, false),
            _ if draw(&mut self.words, 8) < self.plan.asks => self.ask(who),
            _ => self.go_on(who),
        }
    }

    /// One of the things on their way goes on, in any order, or the companion asks.
    fn go_on(&mut self, who: u64) -> Result<(), AllocError> {
        let luck = draw(&mut self.words, 4);
        if luck > 0 {
            if let Some((who, datagram)) = picked(&mut self.words, &mut self.datagrams) {
                return self.land(who, datagram);
            }
        }
        if luck > 1 {
            if let Some((who, take)) = picked(&mut self.words, &mut self.takes) {
                return self.give(who, take);
            }
        }
        match picked(&mut self.words, &mut self.requests) {
            Some((who, request)) => self.take(who, request),
            None => self.ask(who),
        }
    }

    fn ask(&mut self, who: u64) -> Result<(), AllocError> {
        let reading = self.read_own(who);
        let request = self.second.ask(who, reading)?;
        self.requests.push((who, request))?;
        self.begin(who)?;
        writeln!(self.schedule, "ask {reading}")
    }

    fn take(&mut self, who: u64, request: u64) -> Result<(), AllocError> {
        let reading = self.read_television();
        let take = self.second.take(request, reading)?;
        self.takes.push((who, take))?;
        self.begin(0)?;
        writeln!(self.schedule, "take {request} {reading}")
    }

    fn give(&mut self, who: u64, take: u64) -> Result<(), AllocError> {
        let reading = self.read_television();
        let before = self.second.datagrams();
        self.second.give(take, reading)?;
        for earlier in before..self.second.datagrams() {
            self.datagrams.push((who, earlier.wrapping_add(1)))?;
        }
        self.begin(0)?;
        writeln!(self.schedule, "give {take} {reading}")
    }

    /// One datagram in eight is lost, and one may land again.
    fn land(&mut self, who: u64, datagram: u64) -> Result<(), AllocError> {
        let luck = draw(&mut self.words, 8);
        if luck == 0 {
            return Ok(());
        }
        if luck == 1 {
            self.datagrams.push((who, datagram))?;
        }
        let reading = self.read_own(who);
        self.second.land(who, datagram, reading)?;
        self.begin(who)?;
        writeln!(self.schedule, "land {datagram} {reading}")
    }

    /// What is on its way stays so over a sleep: the companion knows nothing of it any more when it lands.
    fn sleep(&mut self, who: u64) -> Result<(), AllocError> {
        self.sleeps = self.sleeps.wrapping_add(1);
        self.second.sleep(who);
        if let Some(clock) = self.clocks.get_mut(index(who)) {
            clock.sleep(&mut self.words, self.time);
        }
        self.line(who, "sleep")
    }

    fn print(&mut self, who: u64, ticks: bool) -> Result<(), AllocError> {
        let reading = self.read_own(who);
        self.begin(who)?;
        let verb = if ticks { "print" } else { "wall" };
        writeln!(self.schedule, "{verb} {reading}")?;
        let Some((low, high)) = self.span(who, reading)? else {
            return Ok(());
        };
        let (number, at) = (self.number, i128::from(self.television.at(self.time)));
        if !ticks {
            return writeln!(self.printed, "{number} wall {low} {high} at {at}");
        }
        let (low, high, at) = (self.tick(low), self.tick(high), self.tick(at));
        writeln!(self.printed, "{number} ticks {low} {high} at {at}")
    }

    /// Where there is none, that is printed.
    fn span(&mut self, who: u64, reading: u64) -> Result<Option<(i128, i128)>, AllocError> {
        self.prints = self.prints.wrapping_add(1);
        let span = self.second.span(who, reading);
        match span {
            Some(_) => self.intervals = self.intervals.wrapping_add(1),
            None => writeln!(self.printed, "{} none NoAnswer", self.number)?,
        }
        Ok(span)
    }

    /// The tick of the timeline, of 90,000 a second, at a value of the wall clock: 900,000 when the programme began.
    fn tick(&self, wall: i128) -> i128 {
        wall.wrapping_sub(i128::from(self.began))
            .wrapping_mul(90_000)
            .div_euclid(1_000_000_000)
            .wrapping_add(900_000)
    }

    fn read_television(&mut self) -> u64 {
        self.television.read(&mut self.words, self.time)
    }

    fn read_own(&mut self, who: u64) -> u64 {
        match self.clocks.get_mut(index(who)) {
            Some(clock) => clock.read(&mut self.words, self.time),
            None => 0,
        }
    }

    fn line(&mut self, who: u64, words: &str) -> Result<(), AllocError> {
        self.begin(who)?;
        writeln!(self.schedule, "{words}")
    }

    /// Begins a line: true time, what the wall clock shows, whose line it is and what its clock shows. Where no
    /// companion takes part, both are 0.
    fn begin(&mut self, who: u64) -> Result<(), AllocError> {
        self.number = self.number.wrapping_add(1);
        let own = match self.clocks.get(index(who)) {
            Some(clock) => clock.at(self.time),
            None => 0,
        };
        let wall = self.television.at(self.time);
        write!(self.schedule, "{} {wall} {who} {own} ", self.time)
    }
}
