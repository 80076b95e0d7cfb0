//! The commands, what each of them takes, and what it reads.

use std::alloc::Global;

/// The commands.
pub(crate) const COMMANDS: [&str; 11] = [
    "replay",
    "migrate",
    "agree",
    "audit",
    "companion",
    "watch",
    "tv",
    "pair",
    "relay",
    "generate",
    "survey",
];

const COMPANION: &str =
    "--cii --selector --stem --reports --turns --seconds --report-every --ask-every --local-error \
     --local-precision --earliest --latest --record";

const WATCH: &str =
    "--cii --selector --stem --seconds --report-every --ask-every --local-error --local-precision";

const TV: &str = "--port --turns --seconds --precision --error --host --follow --relative";

const PAIR: &str =
    "--selector --stem --reports --turns --seconds --report-every --ask-every --local-error \
     --local-precision --earliest --latest --port --precision --error --follow --relative";

const RELAY: &str =
    "--cii --port --turns --seconds --ask-every --local-error --local-precision --host";

const GENERATOR: &str = "--seed --lines --companions";

const AGREE: &str = "--pairs";

/// The options of a command, with a space between two of them. Those without a value come last.
pub(crate) fn options_of(command: &str) -> &'static str {
    match command {
        "agree" => AGREE,
        "companion" => COMPANION,
        "watch" => WATCH,
        "tv" => TV,
        "pair" => PAIR,
        "relay" => RELAY,
        "generate" | "survey" => GENERATOR,
        _ => "",
    }
}

/// What a command reads from standard input, where it reads that.
pub(crate) fn input_of(command: &str) -> Option<&'static str> {
    match command {
        "replay" => Some("a schedule"),
        "migrate" => Some("a schedule of version 1"),
        "agree" => Some("answers"),
        "audit" => Some("a record"),
        "companion" => Some("a cue sheet"),
        "tv" | "pair" => Some("a script"),
        _ => None,
    }
}

/// Whether there is a command of this name.
pub(crate) fn is_command(word: &str) -> bool {
    COMMANDS.iter().any(|name| *name == word)
}

/// The names of all commands, with a space before each.
fn names(alloc: Global) -> Option<String> {
    let mut names = String::new(alloc);
    for name in COMMANDS {
        names.push(' ').ok()?;
        names.push_str(name).ok()?;
    }
    Some(names)
}

/// What a command takes, or which commands there are where it is none.
pub(crate) fn help(alloc: Global, command: &str) -> Option<String> {
    let options = options_of(command);
    match input_of(command) {
        _ if !options.is_empty() => format!(in alloc; "{command}: {options}; man css"),
        Some(input) => format!(in alloc;
            "{command} takes no options, and reads {input}: css {command} < FILE; man css"
        ),
        None => {
            let names = names(alloc)?;
            format!(in alloc;
                "the commands:{names}; css COMMAND --help names its options, man css says it all"
            )
        }
    }
    .ok()
}

/// The version of the program, which docs/css.1 has too, and the commands.
pub(crate) fn version(alloc: Global) -> Option<String> {
    let names = names(alloc)?;
    format!(in alloc; "this is css 1.0; the commands:{names}; man css").ok()
}
