//! What an event makes of the progress.
ghost use Rattle.std.specs.Prelude.{◌≡◌, ◌<◌, ◌≤◌, ◌+◌, ◌*◌, ◌^◌};
ghost use Rattle.css_model.specs.declared.Kind.TheVariants as kinds;
ghost use Rattle.css_outside.specs.Limits as limits;
ghost use Rattle.css_watch.specs.Progress as spec;

use crate::plan::Plan;
use crate::progress::{Begun, Progress, Tried};
use css_client::Landing;
use css_companion::Report;
use css_drive::Session;
use css_outside::{Failure, Kind, Limit};
use css_span::Answer;
use css_watch_lines::Between;

/// The greatest number that a line tells.
const GREATEST: u64 = 999_999_999_999_999_999;

/// One more, up to the greatest number that a line tells.
pub(crate) fn counted(count: u64) -> u64
    ensures value { result ≡ spec.counted count }
    ensures few { result < 10 ^ 18 }
{
    if count < GREATEST {
        count + 1
    } else {
        GREATEST
    }
}

/// One more report than so many.
fn next(count: u64) -> u128
    ensures value { result ≡ count + 1 }
    ensures bound { result ≤ 2 ^ 64 }
{
    u128::from(count) + 1
}

/// The earliest reading at which a report is due after so many.
fn due_from(first: u64, count: u64, every: u64) -> u128
    ensures { result ≡ first + (count + 1) * every }
{
    u128::from(first) + next(count) * u128::from(every)
}

/// A number as a line tells it.
pub(crate) fn told_number(count: u64) -> u64
    ensures value { result ≡ spec.told_number count }
    ensures few { result < 10 ^ 18 }
{
    count.min(GREATEST)
}

/// Whether a turn that begins at this reading is the last by its time, where the first one began at `first`.
pub(crate) fn is_over(limit: Limit, first: u64, reading: u64) -> bool
    ensures { result ≡ limits.is_over limit first reading }
{
    match limit {
        Limit::Turns(_) => false,
        Limit::Seconds(seconds) => {
            u128::from(first) + u128::from(seconds) * 1_000_000_000 <= u128::from(reading)
        }
    }
}

/// Whether a report of the watch is due in a turn that begins at this reading.
pub(crate) fn reports_now(plan: &Plan, reading: u64, begun: &Begun) -> bool
    ensures { result ≡ spec.reports_now plan.now reading begun.now }
{
    match begun.first {
        None => false,
        Some(first) => due_from(first, begun.reports, plan.report_every) <= u128::from(reading),
    }
}

/// How long a visit goes on after CSS-TS closed, in nanoseconds, where nothing comes.
const GRACE: u64 = 4_000_000;

/// The least reading at which a turn has something to do by the clock, after a turn of this reading, where the run has
/// something to do at `due`: the next report, or the watch's last turn. Where CSS-TS has closed the next turn ends the
/// visit. It waits for what CSS-CII may tell, and nothing that is due hurries it.
pub(crate) fn next_due(plan: &Plan, progress: &Progress, turn: u64, due: u64) -> u64 {
    if progress.ts_closed {
        return turn.saturating_add(GRACE);
    }
    let begun = &progress.begun;
    let first = begun.first.unwrap_or(turn);
    let report = due_from(first, begun.reports, plan.report_every);
    let report = u64::try_from(report).unwrap_or(u64::MAX);
    due.min(report).min(plan.run.limit.last_from(first))
}

impl Begun {
    /// Nothing was begun.
    pub(crate) fn new() -> Begun
        ensures { result ≡ spec.nothing_begun }
    {
        Begun {
            visits: 0,
            first: None,
            reports: 0,
            reached: false,
            found: false,
        }
    }

    /// With one more visit.
    pub(crate) fn with_visit(self) -> Begun
        ensures { result ≡ spec.with_visit self }
    {
        Begun {
            visits: counted(self.visits),
            first: self.first,
            reports: self.reports,
            reached: self.reached,
            found: self.found,
        }
    }

    /// With a turn that begins at this reading.
    fn with_turn(self, reading: u64) -> Begun
        ensures { result ≡ spec.with_turn reading self }
    {
        Begun {
            visits: self.visits,
            first: Some(self.first.unwrap_or(reading)),
            reports: self.reports,
            reached: self.reached,
            found: self.found,
        }
    }

    /// With a dial of CSS-CII, which may have succeeded.
    fn with_dial(self, is_open: bool) -> Begun
        ensures { result ≡ spec.with_dial is_open self }
    {
        Begun {
            visits: self.visits,
            first: self.first,
            reports: self.reports,
            reached: self.reached || is_open,
            found: self.found,
        }
    }

    /// With a report.
    fn with_report(self, report: &Report) -> Begun
        ensures { result ≡ spec.with_report report.now self }
    {
        Begun {
            visits: self.visits,
            first: self.first,
            reports: counted(self.reports),
            reached: self.reached,
            found: self.found || matches!(report, Report::Ticks { .. }),
        }
    }

    /// With the report that is due, if one is.
    fn with_due(self, due: &Option<Report>) -> Begun
        ensures { result ≡ spec.with_due due.now self }
    {
        match due {
            None => self,
            Some(report) => self.with_report(report),
        }
    }
}

impl Progress {
    /// A visit that was just begun.
    pub(crate) fn fresh(begun: Begun) -> Progress
        ensures { result ≡ spec.fresh begun }
    {
        Progress {
            begun,
            entered: false,
            slept: false,
            cii: Tried::Never,
            wc: Tried::Never,
            ts: Tried::Never,
            cii_open: None,
            ts_open: None,
            ts_closed: false,
            asked: false,
            waiting: 0,
            refused: None,
            unread: None,
            between: None,
        }
    }

    /// After a sleep.
    pub(crate) fn after_sleep(&mut self)
        ensures { self.new ≡ spec.after_sleep self.old }
    {
        self.slept = true;
        self.asked = false;
        self.waiting = 0;
        self.refused = None;
    }

    /// Whether CSS-TS was open and isn't any more.
    fn has_closed_ts(&self) -> bool
        ensures { result ≡ spec.has_closed_ts self.now }
    {
        self.ts.is_open() && self.ts_open.is_none()
    }

    /// After a turn with its report, if one is due.
    pub(crate) fn after_turn(&mut self, reading: u64, due: &Option<Report>)
        ensures { self.new ≡ spec.after_turn reading due.now self.old }
    {
        self.ts_closed = self.has_closed_ts();
        self.begun = self.begun.with_turn(reading).with_due(due);
        self.entered = true;
        self.slept = false;
    }

    /// After a dial of CSS-CII.
    fn after_cii(&mut self, tried: Result<u32, Failure>)
        ensures { self.new ≡ spec.after_dial kinds.Cii tried self.old }
    {
        self.begun = self.begun.with_dial(tried.is_ok());
        self.cii = Tried::by(tried);
        self.cii_open = opened_by(tried, self.cii_open);
    }

    /// After a dial.
    pub(crate) fn after_dial(&mut self, kind: Kind, tried: Result<u32, Failure>)
        ensures { self.new ≡ spec.after_dial kind tried self.old }
    {
        match kind {
            Kind::Cii => self.after_cii(tried),
            Kind::Wc => self.wc = Tried::by(tried),
            Kind::Ts => {
                self.ts = Tried::by(tried);
                self.ts_open = opened_by(tried, self.ts_open);
            }
        }
    }

    /// After a request.
    pub(crate) fn after_request(&mut self)
        ensures { self.new ≡ spec.after_request self.old }
    {
        self.slept = false;
        self.asked = true;
        self.waiting = counted(self.waiting);
    }

    /// After a landing of what is told so, and of an answer that may contradict another.
    pub(crate) fn after_landing(
        &mut self,
        judged: &Result<Answer, Landing>,
        between: Option<Between>,
    )
        ensures { self.new ≡ spec.after_landing judged.now between self.old }
    {
        self.slept = false;
        self.waiting = 0;
        self.refused = match judged {
            Ok(_) => None,
            Err(refusal) => Some(*refusal),
        };
        self.between = between;
    }

    /// After the end of a session.
    pub(crate) fn after_end(&mut self, session: Session)
        ensures { self.new ≡ spec.after_end session self.old }
    {
        match session {
            Session::Cii => self.cii_open = None,
            Session::Ts => self.ts_open = None,
        }
    }
}

/// The peer of a session that a dial opened, else the one that was open.
fn opened_by(tried: Result<u32, Failure>, was: Option<u32>) -> Option<u32>
    ensures { result ≡ spec.opened_by tried was }
{
    match tried {
        Ok(peer) => Some(peer),
        Err(_) => was,
    }
}

impl Tried {
    /// What became of a dial.
    pub(crate) fn by(tried: Result<u32, Failure>) -> Tried
        ensures { result ≡ spec.tried_by tried }
    {
        match tried {
            Ok(_) => Tried::Open,
            Err(failure) => Tried::Failed(failure),
        }
    }

    pub(crate) fn is_open(&self) -> bool
        ensures { result ≡ spec.is_open self.now }
    {
        matches!(self, Tried::Open)
    }
}
