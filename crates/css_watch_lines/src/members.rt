ghost use Rattle.std.specs.Prelude.{◌≡◌, ◌<◌, ◌^◌, IfOk, OnOk, codes};
ghost use Rattle.std.specs.Str.{IsUtf8};
ghost use Rattle.serde_json.specs.Data.{string, object, member, no_members, put};
ghost use Rattle.serde_json.specs.View.{view};
ghost use Rattle.css_cii.specs.Texts.{rate_data};
ghost use Rattle.css_model.specs.WallClock.{IsAnswer};
ghost use Rattle.css_watch_lines.specs.Lines as lines;
ghost use Rattle.css_watch_lines.specs.Writable.{IsWritable, AreWritable, told_in};

use crate::known::{Between, Ticks};
use css_cii::rate_value;
use css_num::{Memory, Rate, Span, Text};
use css_span::Answer;
use css_text::{Map, write_value};
use serde_json::{Value, json};
use std::alloc::{AllocError, Global};

/// The words of a text, which is UTF-8.
pub fn words_of(text: &Text) -> &str
    requires { IsUtf8 text.now }
    ensures { result.now ≡ text.now }
{
    match str::from_utf8(text.bytes()) {
        Ok(words) => words,
        Err(_) => unreachable!(),
    }
}

/// The value of a text.
fn words_value(alloc: Global, words: &str) -> Result<Value, AllocError>
    ensures { IfOk result (λ value. view value ≡ string words.now) }
{
    Ok(Value::String(String::from_str(alloc, words)?))
}

/// The value of a number of any size: the text of its digits.
fn digits_value(alloc: Global, number: i128) -> Result<Value, AllocError>
    ensures { IfOk result (λ value. view value ≡ lines.digits number) }
{
    let digits = format!(in alloc; "{number}")?;
    Ok(Value::String(digits))
}

/// The value of a span: its two ends.
fn span_value(alloc: Global, span: Span) -> Result<Value, AllocError>
    ensures { IfOk result (λ value. view value ≡ lines.span_data span) }
{
    let lo = digits_value(alloc, span.lo)?;
    let hi = digits_value(alloc, span.hi)?;
    json!(in alloc; [lo, hi])
}

/// The value of the ticks of a report: the first and the last.
fn ticks_value(alloc: Global, ticks: &Ticks) -> Result<Value, AllocError>
    ensures { IfOk result (λ value. view value ≡ lines.ticks_data ticks.now) }
{
    let lo = digits_value(alloc, ticks.lo)?;
    let hi = digits_value(alloc, ticks.hi)?;
    json!(in alloc; [lo, hi])
}

/// The members of a line.
#[derive(Drop)]
pub(crate) struct Members {
    alloc: Global,
    map: Map,
}

/// The members of an answer: those of its exchange, and what it declares.
fn exchange_members(alloc: Global, answer: &Answer) -> Result<Members, Memory>
    ensures value { IfOk result (λ members. told_in members ≡ lines.exchange_members answer.now) }
{
    let none = Members {
        alloc,
        map: Map::new(alloc),
    };
    none.with_small("error", answer.error)?
        .with_time("landed", answer.t4)?
        .with_time("originate", answer.t1)?
        .with_time("precision", answer.precision)?
        .with_time("receive", answer.t2)?
        .with_time("transmit", answer.t3)
}

/// The value of an answer.
fn exchange_value(alloc: Global, answer: &Answer) -> Result<Value, Memory>
    ensures value { IfOk result (λ value. view value ≡ lines.exchange_data answer.now) }
    ensures in_range { IsAnswer answer.now }
{
    // Reading a field shows proofs the ranges of all.
    let _error = answer.error;
    let Members { alloc: _, map } = exchange_members(alloc, answer)?;
    Ok(Value::Object(map))
}

/// The value of two answers: the upper one first.
fn between_value(alloc: Global, between: &Between) -> Result<Value, Memory>
    ensures value { IfOk result (λ value. view value ≡ lines.between_data between.now) }
    ensures above { OnOk result (IsAnswer between.now.above) }
    ensures below { OnOk result (IsAnswer between.now.below) }
{
    let above = exchange_value(alloc, &between.above)?;
    let below = exchange_value(alloc, &between.below)?;
    let both = json!(in alloc; [above, below])?;
    Ok(both)
}

impl Members {
    /// The name of the event alone.
    pub(crate) fn of_event(alloc: Global, event: &str) -> Result<Members, Memory>
        ensures value { IfOk result (λ members.
            told_in members ≡ member (codes "event") (string event.now) no_members) }
        ensures writable { IfOk result (λ members. AreWritable (told_in members)) }
    {
        let members = Members {
            alloc,
            map: Map::new(alloc),
        };
        members.with_words("event", event)
    }

    /// These members and one more, in alphabetical order.
    pub(crate) fn with_value(self, name: &str, value: Value) -> Result<Members, Memory>
        requires members { AreWritable (told_in self) }
        requires value { IsWritable (view value) }
        ensures value { IfOk result (λ members. told_in members ≡ put name.now (view value) (told_in self)) }
        ensures writable { IfOk result (λ members. AreWritable (told_in members)) }
    {
        let Members { alloc, mut map } = self;
        serde_json::put(&mut map, alloc, name, value)?;
        Ok(Members { alloc, map })
    }

    /// These members and words.
    pub(crate) fn with_words(self, name: &str, words: &str) -> Result<Members, Memory>
        requires members { AreWritable (told_in self) }
        ensures value { IfOk result (λ members. told_in members ≡ put name.now (string words.now) (told_in self)) }
        ensures writable { IfOk result (λ members. AreWritable (told_in members)) }
    {
        let value = words_value(self.alloc, words)?;
        self.with_value(name, value)
    }

    /// These members and a text, which is UTF-8.
    pub(crate) fn with_text(self, name: &str, text: &Text) -> Result<Members, Memory>
        requires members { AreWritable (told_in self) }
        requires value { IsUtf8 text.now }
        ensures value { IfOk result (λ members. told_in members ≡ put name.now (string text.now) (told_in self)) }
        ensures writable { IfOk result (λ members. AreWritable (told_in members)) }
    {
        self.with_words(name, words_of(text))
    }

    /// These members and a number of any size.
    pub(crate) fn with_digits(self, name: &str, number: i128) -> Result<Members, Memory>
        requires members { AreWritable (told_in self) }
        ensures value { IfOk result (λ members. told_in members ≡ put name.now (lines.digits number) (told_in self)) }
        ensures writable { IfOk result (λ members. AreWritable (told_in members)) }
    {
        let value = digits_value(self.alloc, number)?;
        self.with_value(name, value)
    }

    /// These members and a number of at most 18 digits.
    pub(crate) fn with_number(self, name: &str, number: u64) -> Result<Members, Memory>
        requires members { AreWritable (told_in self) }
        requires value { number < 10 ^ 18 }
        ensures value { IfOk result (λ members. told_in members ≡ put name.now (lines.whole number) (told_in self)) }
        ensures writable { IfOk result (λ members. AreWritable (told_in members)) }
    {
        let value = Value::from(number);
        self.with_value(name, value)
    }

    /// These members and a time in nanoseconds.
    pub(crate) fn with_time(self, name: &str, time: u64) -> Result<Members, Memory>
        requires { AreWritable (told_in self) }
        ensures value { IfOk result (λ members. told_in members ≡ put name.now (lines.time time) (told_in self)) }
        ensures writable { IfOk result (λ members. AreWritable (told_in members)) }
    {
        self.with_digits(name, i128::from(time))
    }

    /// These members and a small number.
    pub(crate) fn with_small(self, name: &str, number: u32) -> Result<Members, Memory>
        requires { AreWritable (told_in self) }
        ensures value { IfOk result (λ members. told_in members ≡ put name.now (lines.whole number) (told_in self)) }
        ensures writable { IfOk result (λ members. AreWritable (told_in members)) }
    {
        self.with_number(name, u64::from(number))
    }

    /// These members and a speed.
    pub(crate) fn with_speed(self, name: &str, speed: i32) -> Result<Members, Memory>
        requires members { AreWritable (told_in self) }
        ensures value { IfOk result (λ members. told_in members ≡ put name.now (lines.signed speed) (told_in self)) }
        ensures writable { IfOk result (λ members. AreWritable (told_in members)) }
    {
        let value = Value::from(speed);
        self.with_value(name, value)
    }

    /// These members and the ticks of a report.
    pub(crate) fn with_ticks(self, name: &str, ticks: &Ticks) -> Result<Members, Memory>
        requires members { AreWritable (told_in self) }
        ensures value { IfOk result (λ members.
            told_in members ≡ put name.now (lines.ticks_data ticks.now) (told_in self)) }
        ensures writable { IfOk result (λ members. AreWritable (told_in members)) }
    {
        let value = ticks_value(self.alloc, ticks)?;
        self.with_value(name, value)
    }

    /// These members and a span.
    pub(crate) fn with_span(self, name: &str, span: Span) -> Result<Members, Memory>
        requires members { AreWritable (told_in self) }
        ensures value { IfOk result (λ members. told_in members ≡ put name.now (lines.span_data span) (told_in self)) }
        ensures writable { IfOk result (λ members. AreWritable (told_in members)) }
    {
        let value = span_value(self.alloc, span)?;
        self.with_value(name, value)
    }

    /// These members and two answers.
    pub(crate) fn with_between(self, name: &str, between: &Between) -> Result<Members, Memory>
        requires members { AreWritable (told_in self) }
        ensures value { IfOk result (λ members.
            told_in members ≡ put name.now (lines.between_data between.now) (told_in self)) }
        ensures writable { IfOk result (λ members. AreWritable (told_in members)) }
    {
        let value = between_value(self.alloc, between)?;
        self.with_value(name, value)
    }

    /// These members and a tick rate.
    pub(crate) fn with_rate(self, name: &str, rate: Rate) -> Result<Members, Memory>
        requires members { AreWritable (told_in self) }
        ensures value { IfOk result (λ members. told_in members ≡ put name.now (rate_data rate) (told_in self)) }
        ensures writable { IfOk result (λ members. AreWritable (told_in members)) }
    {
        let value = rate_value(self.alloc, rate)?;
        self.with_value(name, value)
    }

    /// The line of these members.
    #[tactic(auto, unfolding(crate::specs::Lines::text_of))]
    pub(crate) fn line(self) -> Result<Text, Memory>
        requires { AreWritable (told_in self) }
        ensures text { IfOk result (λ text. text ≡ lines.text_of (object (told_in self))) }
        ensures read_back { OnOk result (lines.IsReadBack (object (told_in self))) }
    {
        let Members { alloc, map } = self;
        let mut text = write_value(alloc, &Value::Object(map))?;
        text.push(b"\n")?;
        Ok(text)
    }
}
