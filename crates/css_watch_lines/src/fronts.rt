ghost use Rattle.std.specs.Prelude.{◌≡◌, IfOk, string_bytes};
ghost use Rattle.css_watch_lines.specs.Fronts as fronts;

use css_num::Memory;
use std::alloc::Global;

/// How many bytes of a text a line tells at most.
const ROOM: usize = 1000;

/// The first 1,000 bytes of words, cut at a character.
fn cut(mut words: String) -> String
    ensures { string_bytes result ≡ fronts.cut (string_bytes words) }
{
    if words.len() <= ROOM {
        return words;
    }
    let end = words.as_str().floor_char_boundary(ROOM);
    words.truncate(end);
    words
}

/// The front of a text that can't be read: at most 1,000 bytes, in which U+FFFD stands for what is no UTF-8.
pub fn front(alloc: Global, text: &[u8]) -> Result<String, Memory>
    ensures { IfOk result (λ words. string_bytes words ≡ fronts.front_of text.now) }
{
    Ok(cut(String::from_utf8_lossy(alloc, text)?))
}
