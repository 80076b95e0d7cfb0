//! What the words of a command line say, of whichever command they are.

/// The command's name, if there is one.
pub(crate) fn command_in(words: &[String]) -> &str {
    match words.first() {
        Some(name) => name.as_str(),
        None => "",
    }
}

/// What stands before the first of this character.
pub(crate) fn up_to(text: &str, end: char) -> &str {
    match text.split_once(end) {
        Some((before, _)) => before,
        None => text,
    }
}

/// The value of an option, such as `--host`.
pub(crate) fn value_of<'a>(words: &'a [String], name: &str) -> Option<&'a str> {
    let mut is_next = false;
    for word in words {
        let word = word.as_str();
        if is_next {
            return Some(word);
        }
        let Some(rest) = word.strip_prefix(name) else {
            continue;
        };
        is_next = rest.is_empty();
        if let Some(value) = rest.strip_prefix('=') {
            return Some(value);
        }
    }
    None
}

/// The first word that begins so, and the one before it.
pub(crate) fn word_like<'a>(words: &'a [String], front: &str) -> Option<(&'a str, &'a str)> {
    let mut before = "";
    for word in words {
        let word = word.as_str();
        if word.starts_with(front) {
            return Some((before, word));
        }
        before = word;
    }
    None
}
