ghost use Rattle.std.specs.Prelude.{◌≡◌, ◌≤◌, ◌<◌, ◌-◌, ◌^◌, min, length, IfOk, OnOk, OnErr};
ghost use Rattle.css_printed.specs.Printed as printed;
ghost use Rattle.css_gen.specs.Crowd as crowds;
ghost use Rattle.css_gen.specs.Bounds.{CanHappen};
ghost use Rattle.css_gen.specs.Standing.{AreSome, IsReady, CanTurn, IsKnown};

use crate::course::{Course, draw};
use crate::senders::Senders;
use css_num::{Memory, Text};
use css_printed::print_line;
use css_schedule::{Line, Verb};
use std::alloc::Global;

/// The course of a schedule of several companions. With one companion only `course` goes on.
#[derive(Drop)]
pub(crate) struct Crowd {
    /// How many companions there are.
    pub(crate) companions: u32,
    /// What they have together: true time, the television's clock and the words. The companion's clock in it is that of
    /// the last line's companion.
    pub(crate) course: Course,
    /// Whether each companion's oscillator runs fast.
    fast: [bool; 16],
    /// Who sent each request.
    senders: Senders,
    /// Who sent the request of each take.
    askers: Senders,
}

/// Whose turn it is.
#[derive(Drop)]
struct Turn {
    /// The companion's number.
    who: u32,
    /// The course, with this companion's clock.
    course: Course,
}

/// The line at which this happens, by the clocks of the turn.
fn line_at(t: u64, w: u64, who: u32, l: u64, verb: Verb) -> Line
    ensures { result ≡ crowds.line_at t w who l verb }
{
    let own = verb.is_own();
    Line {
        t,
        w,
        who: if own { who } else { 0 },
        l: if own { l } else { 0 },
        verb,
    }
}

/// Draws which oscillators run fast, after that of the first companion, which the course has.
#[tactic(auto, unfolding(crate::specs::Crowd::tuned), using(crate::proofs::Tuning::tuned_next))]
fn tune(course: &mut Course, companions: u32) -> [bool; 16]
    requires { AreSome companions }
    ensures fast { result ≡ (crowds.tuned course.old (companions - 1)).fast }
    ensures course { course.new ≡ record course.old { words = (crowds.tuned course.old (companions - 1)).left } }
{
    let mut fast = [course.own_fast; 16];
    for others in 0..companions - 1 {
        fast[others as usize + 1] = draw(&mut course.words, 2) == 0;
    }
    fast
}

impl Crowd {
    /// The crowd of a seed, before its first line.
    #[tactic(auto, unfolding(crate::specs::Crowd::gathered))]
    pub(crate) fn start(alloc: Global, seed: u64, companions: u32) -> Crowd
        requires { AreSome companions }
        ensures crowd { result ≡ crowds.gathered seed companions }
        ensures companions { result.companions ≡ companions }
    {
        let mut course = Course::start(seed);
        let fast = tune(&mut course, companions);
        Crowd {
            companions,
            course,
            fast,
            senders: Senders::new(alloc),
            askers: Senders::new(alloc),
        }
    }

    /// The text of the next line. Only once it is there does the crowd go on.
    pub(crate) fn next_text(&mut self, alloc: Global) -> Result<Text, Memory>
        requires { IsReady self.old }
        ensures text { IfOk result (λ text. text ≡ printed.line_text_in 2 (crowds.next_line_of self.old)) }
        ensures crowd { OnOk result (self.new ≡ crowds.next_crowd self.old) }
        ensures refused { OnErr result (self.new ≡ self.old) }
    {
        let mut turn = self.turn()?;
        let line = self.line(&mut turn);
        let text = print_line(alloc, &line, 2)?;
        self.remember(&line)?;
        self.course = turn.course;
        Ok(text)
    }

    /// The next line.
    pub(crate) fn next_line(&mut self) -> Result<Line, Memory>
        requires { IsReady self.old }
        ensures line { IfOk result (λ line. line ≡ crowds.next_line_of self.old) }
        ensures crowd { OnOk result (self.new ≡ crowds.next_crowd self.old) }
        ensures refused { OnErr result (self.new ≡ self.old) }
    {
        let mut turn = self.turn()?;
        let line = self.line(&mut turn);
        self.remember(&line)?;
        self.course = turn.course;
        Ok(line)
    }

    /// True time passes, and a companion is drawn.
    #[tactic(auto, unfolding(crate::specs::Crowd::turn))]
    fn turn(&self) -> Result<Turn, Memory>
        requires { IsReady self.now }
        ensures { IfOk result (λ turn. turn ≡ crowds.turn self.now) }
    {
        let mut course = self.course.clone()?;
        course.pass();
        let others = draw(&mut course.words, self.companions);
        course.own_fast = self.fast[others as usize];
        Ok(Turn {
            who: others + 1,
            course,
        })
    }

    /// What happens at the turn, as a line.
    fn line(&self, turn: &mut Turn) -> Line
        requires { CanTurn self.now turn.old }
        ensures line { result ≡ crowds.line_of_turn turn.old (crowds.happening_of self.now.askers turn.old).verb }
        ensures turn { turn.new ≡ record turn.old { course = (crowds.happening_of self.now.askers turn.old).course } }
    {
        let t = turn.course.time;
        let w = turn.course.tv_clock();
        let l = turn.course.own_clock();
        let verb = self.happen(turn);
        line_at(t, w, turn.who, l, verb)
    }

    /// Draws what happens.
    #[tactic(auto, unfolding(crate::specs::Crowd::happening_of))]
    fn happen(&self, turn: &mut Turn) -> Verb
        requires { CanTurn self.now turn.old }
        ensures verb { result ≡ (crowds.happening_of self.now.askers turn.old).verb }
        ensures turn { turn.new ≡ record turn.old { course = (crowds.happening_of self.now.askers turn.old).course } }
    {
        let choice = draw(&mut turn.course.words, 9);
        self.choose(turn.who, choice, &mut turn.course)
    }

    /// What happens by a choice of 0 to 8.
    #[tactic(auto, unfolding(crate::specs::Crowd::chosen_of))]
    fn choose(&self, who: u32, choice: u32, course: &mut Course) -> Verb
        requires can { CanHappen course.old }
        requires answers { course.old.answers ≤ length self.now.askers }
        ensures verb { result
            ≡ (crowds.chosen_of choice (crowds.datagrams who self.now.askers course.old.answers) course.old).verb }
        ensures course { course.new
            ≡ (crowds.chosen_of choice (crowds.datagrams who self.now.askers course.old.answers) course.old).course }
    {
        if choice < 4 {
            course.choose(choice)
        } else if choice < 6 {
            self.land(who, course)
        } else if choice < 8 {
            Verb::Print {
                reading: course.own_clock(),
            }
        } else {
            Verb::Sleep
        }
    }

    /// One of the last eight datagrams lands that answer the companion's requests. Where there is none, a request is
    /// sent.
    fn land(&self, who: u32, course: &mut Course) -> Verb
        requires can { CanHappen course.old }
        requires answers { course.old.answers ≤ length self.now.askers }
        ensures verb { result
            ≡ (crowds.landed_of (crowds.datagrams who self.now.askers course.old.answers) course.old).verb }
        ensures course { course.new
            ≡ (crowds.landed_of (crowds.datagrams who self.now.askers course.old.answers) course.old).course }
    {
        let made = self.askers.recent_datagrams(who, course.answers);
        if made == 0 {
            return course.ask();
        }
        let back = draw(&mut course.words, made);
        Verb::Land {
            datagram: self.askers.datagram(who, course.answers, back),
            reading: course.own_clock(),
        }
    }

    /// Remembers who sent a request, and whose request a take is of.
    fn remember(&mut self, line: &Line) -> Result<(), Memory>
        requires { IsKnown (length self.old.senders) line.now.verb }
        ensures crowd { OnOk result (self.new ≡ crowds.remembering self.old line.now) }
        ensures refused { OnErr result (self.new ≡ self.old) }
    {
        match &line.verb {
            Verb::Ask { .. } => self.senders.push(line.who),
            Verb::Take { request, .. } => self.askers.push(self.senders.at(*request)),
            _ => Ok(()),
        }
    }
}
