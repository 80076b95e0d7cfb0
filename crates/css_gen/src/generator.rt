ghost use Rattle.std.specs.Prelude.{◌≡◌, ◌≤◌, ◌<◌, ◌+◌, ◌==◌, IfOk, OnOk, OnErr};
ghost use Rattle.css_printed.specs.Printed as printed;
ghost use Rattle.css_gen.specs.Course.{next_line, next_course};
ghost use Rattle.css_gen.specs.Opening as opening;
ghost use Rattle.css_gen.specs.Generated as generated;
ghost use Rattle.css_gen.specs.Generated.{line_from, text_from, next_text, after_next, header_for, heading, line_for};
ghost use Rattle.css_gen.specs.Bounds.{IsSmall};
ghost use Rattle.css_gen.specs.Second.{least_lines};
ghost use Rattle.css_gen.specs.Standing.{course_from, CanGive, line_with, text_with, crowd_with};

use crate::course::Course;
use crate::crowd::Crowd;
use crate::opening::{header, opening_line};
use crate::second::{second_line, second_text};
use css_num::{Memory, Text};
use css_printed::{print_header, print_line};
use css_schedule::{Header, Line};
use std::alloc::Global;
use std::marker::Model;

/// How many lines open each schedule: the header, and eight lines at true time 0.
const OPENING: u64 = 9;

/// The lines of a schedule that is made of a seed, one after another. It keeps none of them: it knows how many it has
/// given, and how many requests, takes and answers there were among these. Of several companions it also knows who sent
/// each request.
///
/// Contracts see the seed, the number of lines in all, how many companions there are, and how many lines it has given.
#[derive(Drop)]
pub struct Generator {
    seed: u64,
    lines: u64,
    given: u64,
    crowd: Crowd,
}

impl Model for Generator {
    ghost use Rattle.css_gen.specs.Standing.{IsGenerator};
    ghost use Rattle.css_gen.specs.Generated.{Generator as Known};

    ghost Value = { Known };

    ghost view = { λ g. record { seed = g.seed; lines = g.lines; companions = g.crowd.companions; given = g.given } };

    ghost invariant = { λ g. IsGenerator g.seed g.lines g.given g.crowd };
}

impl Generator {
    /// The lines of a seed, of 1 to 16 companions: at most 200,000 of them in all, and at least those that open the
    /// schedule. One companion has a schedule of version 1, which 9 lines open. Several have one of version 2, which
    /// 4 lines and 6 for each companion open.
    pub fn new(alloc: Global, seed: u64, lines: u64, companions: u32) -> Generator
        requires least { least_lines companions ≤ lines }
        requires most { lines ≤ 200000 }
        requires some { 1 ≤ companions }
        requires few { companions ≤ 16 }
        ensures { result ≡ record { seed = seed; lines = lines; companions = companions; given = 0 } }
    {
        Generator {
            seed,
            lines,
            given: 0,
            crowd: Crowd::start(alloc, seed, companions),
        }
    }

    /// The next line, without its line feed, and None after the last one. After want of memory the generator is as
    /// before, and gives the same line when it is asked again.
    pub fn next_line(&mut self, alloc: Global) -> Result<Option<Text>, Memory>
        ensures text { IfOk result (λ text. text ≡ next_text self.old) }
        ensures given { OnOk result (self.new ≡ after_next self.old) }
        ensures refused { OnErr result (self.new ≡ self.old) }
    {
        if self.given >= self.lines {
            return Ok(None);
        }
        let text = text_in(alloc, &mut self.crowd, self.given + 1)?;
        self.given += 1;
        Ok(Some(text))
    }

    /// The header, and the lines that declare it are given.
    pub fn header(&mut self, alloc: Global) -> Result<Header, Memory>
        requires { self.old.given ≡ 0 }
        ensures header { IfOk result (λ header. header ≡ header_for self.old.companions) }
        ensures given { OnOk result (self.new ≡ record self.old { given = heading self.old.companions }) }
    {
        let companions = self.crowd.companions;
        let header = header(alloc, companions)?;
        self.given = heading(companions);
        Ok(header)
    }

    /// The next line after the header, as what its text is read as.
    pub fn line(&mut self, alloc: Global) -> Result<Line, Memory>
        requires header { heading self.old.companions ≤ self.old.given }
        requires more { self.old.given < self.old.lines }
        ensures line { IfOk result
            (λ line. line ≡ line_for self.old.seed self.old.companions (self.old.given + 1)) }
        ensures given { OnOk result (self.new ≡ record self.old { given = self.old.given + 1 }) }
    {
        let line = line_in(alloc, &mut self.crowd, self.given + 1)?;
        self.given += 1;
        Ok(line)
    }
}

/// How many lines declare the header of so many companions.
fn heading(companions: u32) -> u64
    ensures { result ≡ generated.heading companions }
{
    if companions == 1 {
        1
    } else {
        u64::from(companions) + 1
    }
}

/// The line of that number, after the header, where the lines after the opening have come to this crowd.
fn line_in(alloc: Global, crowd: &mut Crowd, number: u64) -> Result<Line, Memory>
    requires number { generated.heading crowd.old.companions < number }
    requires ready { CanGive (crowd.old.companions == 1) crowd.old }
    ensures line { IfOk result (λ line. line ≡ line_with crowd.old number) }
    ensures crowd { OnOk result (crowd.new ≡ crowd_with crowd.old number) }
    ensures refused { OnErr result (crowd.new ≡ crowd.old) }
{
    if crowd.companions == 1 {
        line_of(alloc, &mut crowd.course, number)
    } else {
        second_line(alloc, crowd, number)
    }
}

/// The same with one companion.
fn line_of(alloc: Global, course: &mut Course, number: u64) -> Result<Line, Memory>
    requires small { IsSmall course.old }
    ensures line { IfOk result (λ line. line ≡ line_from course.old number) }
    ensures course { OnOk result (course.new ≡ course_from course.old number) }
    ensures refused { OnErr result (course.new ≡ course.old) }
{
    if number <= OPENING {
        opening_line(alloc, number)
    } else {
        Ok(course.next())
    }
}

/// The text of the line of that number, from 1 on, where the lines after the opening have come to this crowd.
fn text_in(alloc: Global, crowd: &mut Crowd, number: u64) -> Result<Text, Memory>
    requires number { 1 ≤ number }
    requires ready { CanGive (crowd.old.companions == 1) crowd.old }
    ensures text { IfOk result (λ text. text ≡ text_with crowd.old number) }
    ensures crowd { OnOk result (crowd.new ≡ crowd_with crowd.old number) }
    ensures refused { OnErr result (crowd.new ≡ crowd.old) }
{
    if crowd.companions == 1 {
        text_of(alloc, &mut crowd.course, number)
    } else {
        second_text(alloc, crowd, number)
    }
}

/// The text of the line of that number, from 1 on, where the lines after the opening have come to this course.
fn text_of(alloc: Global, course: &mut Course, number: u64) -> Result<Text, Memory>
    requires number { 1 ≤ number }
    requires small { IsSmall course.old }
    ensures text { IfOk result (λ text. text ≡ text_from course.old number) }
    ensures course { OnOk result (course.new ≡ course_from course.old number) }
    ensures refused { OnErr result (course.new ≡ course.old) }
{
    if number == 1 {
        header_text(alloc)
    } else if number <= OPENING {
        opening_text(alloc, number)
    } else {
        further_text(alloc, course)
    }
}

fn header_text(alloc: Global) -> Result<Text, Memory>
    ensures { IfOk result (λ text. text ≡ printed.header_text opening.header) }
{
    print_header(alloc, &header(alloc, 1)?, 1)
}

fn opening_text(alloc: Global, number: u64) -> Result<Text, Memory>
    ensures { IfOk result (λ text. text ≡ printed.line_text (opening.opening_line number)) }
{
    print_line(alloc, &opening_line(alloc, number)?, 1)
}

/// The text of the next line after the opening. Only once it is there does the course go on.
fn further_text(alloc: Global, course: &mut Course) -> Result<Text, Memory>
    requires { IsSmall course.old }
    ensures text { IfOk result (λ text. text ≡ printed.line_text (next_line course.old)) }
    ensures course { OnOk result (course.new ≡ next_course course.old) }
    ensures refused { OnErr result (course.new ≡ course.old) }
{
    let mut next = course.clone()?;
    let text = print_line(alloc, &next.next(), 1)?;
    *course = next;
    Ok(text)
}
