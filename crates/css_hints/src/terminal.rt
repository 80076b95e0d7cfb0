ghost use Rattle.std.specs.Prelude.{IfSome};
ghost use Rattle.css_hints.specs.HintLine.{IsHintLine};

use crate::commands::input_of;
use crate::line::line_of;
use crate::options::command_in;
use css_num::Text;
use css_words::{Command, command_of};
use std::alloc::Global;

/// How the input of a command is given that does without one, or else of one that needs it.
fn another_way(command: &str) -> &'static str {
    match command {
        "companion" | "tv" | "pair" => "< /dev/null for none",
        _ => "< FILE to read one",
    }
}

/// The line that tells a person at a terminal what a command waits for: `css: `, the command and its input. None where
/// the words are those of no command, or of one that reads nothing.
pub fn waiting(alloc: Global, words: &[String]) -> Option<Text>
    ensures form { IfSome result IsHintLine }
{
    let asked = command_of(alloc, words).ok()?;
    if let Command::Companion(companion) = &asked {
        if companion.recorded {
            return None;
        }
    }
    let command = command_in(words);
    let input = input_of(command)?;
    let way = another_way(command);
    let line = format!(in alloc;
        "css: {command} reads {input} from standard input until its end, Ctrl-D ({way})"
    ).ok()?;
    line_of(alloc, line.as_str())
}
