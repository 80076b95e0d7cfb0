ghost use Rattle.std.specs.Prelude.{◌≡◌, ◌<◌, ◌^◌};
ghost use Rattle.css_gen.specs.Draws as draws;
ghost use Rattle.css_gen.specs.Course as courses;
ghost use Rattle.css_gen.specs.Bounds.{IsSmall, CanHappen};

use css_schedule::{Line, Verb};
use rand_core::SeedableRng;
use rand_core::utils::NextWord;
use rand_pcg::Lcg64Xsh32;

/// The next word modulo `below`.
#[tactic(auto, unfolding(crate::specs::Draws::draw))]
pub(crate) fn draw(words: &mut Lcg64Xsh32, below: u32) -> u32
    requires { 0 < below }
    ensures number { result ≡ (draws.draw below words.old).number }
    ensures left { words.new ≡ (draws.draw below words.old).left }
    ensures below { result < below }
{
    words.next_word() % below
}

/// What a clock shows at a true time, in nanoseconds: its oscillator runs 50 ppm fast or slow.
#[tactic(auto, unfolding(crate::specs::Course::clock))]
fn clock(fast: bool, time: u64) -> u64
    requires { time < 2 ^ 43 }
    ensures { result ≡ courses.clock fast time }
{
    let shift = 12_800 * time;
    if fast {
        1_000_000_000 + time + shift / 256_000_000
    } else {
        1_000_000_000 + time - (shift + 255_999_999) / 256_000_000
    }
}

/// Where the lines after the opening have come to, and the words that the next ones are drawn from.
#[derive(Clone, Drop)]
pub(crate) struct Course {
    pub(crate) words: Lcg64Xsh32,
    /// Whether the television's oscillator runs fast.
    tv_fast: bool,
    /// Whether the companion's does.
    pub(crate) own_fast: bool,
    /// True time, in nanoseconds.
    pub(crate) time: u64,
    /// How many requests were sent.
    requests: u32,
    /// How many requests were received.
    takes: u32,
    /// How many of these were answered: the first ones.
    pub(crate) answers: u32,
}

impl Course {
    /// The course of a seed, before its first line.
    #[tactic(auto, unfolding(crate::specs::Course::started, crate::specs::Draws::words_of))]
    pub(crate) fn start(seed: u64) -> Course
        ensures { result ≡ courses.started seed }
    {
        let mut words = Lcg64Xsh32::seed_from_u64(seed);
        let tv_fast = draw(&mut words, 2) == 0;
        let own_fast = draw(&mut words, 2) == 0;
        Course {
            words,
            tv_fast,
            own_fast,
            time: 0,
            requests: 0,
            takes: 0,
            answers: 0,
        }
    }

    /// Goes on to the next line.
    pub(crate) fn next(&mut self) -> Line
        requires { IsSmall self.old }
        ensures line { result ≡ courses.next_line self.old }
        ensures course { self.new ≡ courses.next_course self.old }
    {
        self.pass();
        Line {
            t: self.time,
            w: self.tv_clock(),
            who: 1,
            l: self.own_clock(),
            verb: self.happen(),
        }
    }

    /// True time passes: 30 microseconds, and up to 9 milliseconds more.
    #[tactic(auto, unfolding(crate::specs::Course::later))]
    pub(crate) fn pass(&mut self)
        requires { IsSmall self.old }
        ensures course { self.new ≡ courses.later self.old }
        ensures can { CanHappen self.new }
    {
        let grown = draw(&mut self.words, 9_000_000);
        self.time = self.time + 30_000 + u64::from(grown);
    }

    /// Draws what happens.
    #[tactic(auto, unfolding(crate::specs::Course::happening))]
    fn happen(&mut self) -> Verb
        requires { CanHappen self.old }
        ensures verb { result ≡ (courses.happening self.old).verb }
        ensures course { self.new ≡ (courses.happening self.old).course }
    {
        let choice = draw(&mut self.words, 8);
        self.choose(choice)
    }

    /// What happens by a choice of 0 to 7.
    #[tactic(auto, unfolding(crate::specs::Course::chosen))]
    pub(crate) fn choose(&mut self, choice: u32) -> Verb
        requires { CanHappen self.old }
        ensures verb { result ≡ (courses.chosen choice self.old).verb }
        ensures course { self.new ≡ (courses.chosen choice self.old).course }
    {
        if choice < 2 {
            self.ask()
        } else if choice == 2 {
            self.take()
        } else if choice == 3 {
            self.give()
        } else if choice < 6 {
            self.land()
        } else {
            Verb::Print {
                reading: self.own_clock(),
            }
        }
    }

    /// The companion sends its next request.
    pub(crate) fn ask(&mut self) -> Verb
        requires { CanHappen self.old }
        ensures verb { result ≡ (courses.asked self.old).verb }
        ensures course { self.new ≡ (courses.asked self.old).course }
    {
        self.requests += 1;
        Verb::Ask {
            reading: self.own_clock(),
        }
    }

    /// The television receives one of the last four requests. Where none was sent, one is.
    fn take(&mut self) -> Verb
        requires { CanHappen self.old }
        ensures verb { result ≡ (courses.taken self.old).verb }
        ensures course { self.new ≡ (courses.taken self.old).course }
    {
        if self.requests == 0 {
            return self.ask();
        }
        let back = draw(&mut self.words, self.requests.min(4));
        self.takes += 1;
        Verb::Take {
            request: self.requests - back,
            reading: self.tv_clock(),
        }
    }

    /// The television answers the first take that has no answer. Where there is none, a request is sent.
    fn give(&mut self) -> Verb
        requires { CanHappen self.old }
        ensures verb { result ≡ (courses.given self.old).verb }
        ensures course { self.new ≡ (courses.given self.old).course }
    {
        if self.answers == self.takes {
            return self.ask();
        }
        self.answers += 1;
        Verb::Give {
            take: self.answers,
            reading: self.tv_clock(),
        }
    }

    /// One of the last eight datagrams lands: each answer makes two, since the television follows up each response.
    /// Where none was made, a request is sent.
    fn land(&mut self) -> Verb
        requires { CanHappen self.old }
        ensures verb { result ≡ (courses.landed self.old).verb }
        ensures course { self.new ≡ (courses.landed self.old).course }
    {
        if self.answers == 0 {
            return self.ask();
        }
        let made = 2 * self.answers;
        let back = draw(&mut self.words, made.min(8));
        Verb::Land {
            datagram: made - back,
            reading: self.own_clock(),
        }
    }

    /// The television's wall clock.
    pub(crate) fn tv_clock(&self) -> u64
        requires { self.now.time < 2 ^ 43 }
        ensures { result ≡ courses.tv_clock self.now }
    {
        clock(self.tv_fast, self.time)
    }

    /// The companion's clock.
    pub(crate) fn own_clock(&self) -> u64
        requires { self.now.time < 2 ^ 43 }
        ensures { result ≡ courses.own_clock self.now }
    {
        clock(self.own_fast, self.time)
    }
}
