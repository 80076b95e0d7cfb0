//! The lines of each input, as the names of the forms of their words.

/// An input that is read line by line.
#[derive(Clone, Copy)]
pub(crate) enum Grammar {
    /// A schedule.
    Schedule,
    /// A schedule that is to be migrated, which is of version 1.
    Migrated,
    /// Answers.
    Answers,
    /// The record of a companion.
    Record,
    /// A television's script.
    Script,
    /// A companion's cue sheet.
    Sheet,
}

const COMPANION: &str = "companion K EL PL SELECTOR STEM";

const SCHEDULE_VERBS: &str =
    "ask, take, give, land, wall, print, programme, timeline, change, speed, seek, open, text, up, present, close";

/// Whether the fourth word is a number, as in a schedule of several companions: the verb stands there in one of one.
pub(crate) fn is_of_several(line: &str) -> bool {
    match line.split(' ').nth(3) {
        Some(word) => !word.is_empty() && word.bytes().all(|byte| byte.is_ascii_digit()),
        None => false,
    }
}

/// What stands in a line of each verb of a schedule. Only a schedule that isn't migrated can have `sleep`.
const SCHEDULE: [&str; 16] = [
    "ask R",
    "take I R",
    "give J R",
    "land I R",
    "wall R",
    "print R",
    "programme ID",
    "timeline N SELECTOR UPT UPS BASE",
    "change R N",
    "speed R S",
    "seek R M",
    "open cii|ts",
    "text cii|ts",
    "up ts",
    "present TICK EARLIEST TICK LATEST",
    "close cii|ts",
];

const SCRIPT: [&str; 5] = [
    "programme ID",
    "timeline N SELECTOR UPT UPS BASE",
    "change N",
    "speed S",
    "seek M",
];

const RECORD: [&str; 8] = [
    "slept",
    "turn R",
    "ask R",
    "land R HEX",
    "cii HEX",
    "ts HEX",
    "closed cii|ts",
    "report N",
];

const ANSWERS: [&str; 2] = ["answer R R R R KW EW", "at R"];

const SHEET: [&str; 2] = ["cue TICK NAME", "meter REPORTS"];

/// The row that begins with this verb.
fn row_of(rows: &[&'static str], verb: &str) -> Option<&'static str> {
    for row in rows {
        if row.split(' ').next() == Some(verb) {
            return Some(*row);
        }
    }
    None
}

impl Grammar {
    /// Whether nothing is said here of the words of this line, as of a record's report.
    pub(crate) fn is_free(self, line: &str) -> bool {
        matches!(self, Grammar::Record) && line.starts_with("report ")
    }

    /// The whole of a line that has no verb: a header, or the line of a schedule's companion.
    pub(crate) fn whole(self, number: u64, line: &str) -> Option<&'static str> {
        match self {
            Grammar::Schedule if number == 1 && line.starts_with("css-schedule 2 ") => {
                Some("css-schedule 2 follow|plain EW KW COMPANIONS")
            }
            Grammar::Schedule if number == 1 => {
                Some("css-schedule 1|2 follow|plain EW KW EL PL SELECTOR STEM")
            }
            Grammar::Migrated if number == 1 => {
                Some("css-schedule 1 follow|plain EW KW EL PL SELECTOR STEM")
            }
            Grammar::Answers if number == 1 => Some("css-agree 1 EL PL"),
            Grammar::Record if number == 1 => Some("css-record 1 EL PL SELECTOR STEM"),
            Grammar::Schedule if line.starts_with("companion ") => Some(COMPANION),
            _ => None,
        }
    }

    /// What stands before the verb of this line.
    pub(crate) fn front(self, line: &str) -> Option<&'static str> {
        match self {
            Grammar::Schedule if is_of_several(line) => Some("T W K L"),
            Grammar::Schedule | Grammar::Migrated => Some("T W L"),
            Grammar::Script => Some("W"),
            Grammar::Answers | Grammar::Record | Grammar::Sheet => None,
        }
    }

    /// This verb and what stands behind it. None where there is no such verb.
    pub(crate) fn verb(self, verb: &str) -> Option<&'static str> {
        match self {
            Grammar::Schedule if verb == "sleep" => Some("sleep"),
            Grammar::Schedule | Grammar::Migrated => row_of(SCHEDULE.as_slice(), verb),
            Grammar::Answers => row_of(ANSWERS.as_slice(), verb),
            Grammar::Record => row_of(RECORD.as_slice(), verb),
            Grammar::Script => row_of(SCRIPT.as_slice(), verb),
            Grammar::Sheet => row_of(SHEET.as_slice(), verb),
        }
    }

    /// The verbs, for a person.
    pub(crate) fn verbs(self) -> &'static str {
        match self {
            Grammar::Schedule | Grammar::Migrated => SCHEDULE_VERBS,
            Grammar::Answers => "answer or at",
            Grammar::Record => "slept, turn, ask, land, cii, ts, closed or report",
            Grammar::Script => "programme, timeline, change, speed or seek",
            Grammar::Sheet => "cue or meter",
        }
    }
}
