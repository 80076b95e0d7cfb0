ghost use Rattle.std.specs.Prelude.{◌≡◌};
ghost use Rattle.std.specs.List.{list_all};
ghost use Rattle.css_words.specs.Recorded as recorded;

use crate::fault::WordsFault;

// Whether each byte is from `!` to `~`.
fn are_graphic(bytes: &[u8]) -> bool
    ensures { result ≡ list_all recorded.is_graphic bytes.now }
{
    bytes.iter().all(|byte| b'!' <= *byte && *byte <= b'~')
}

// Whether there is a byte, and each is from `!` to `~`.
fn is_word(bytes: &[u8]) -> bool
    ensures { result ≡ recorded.is_word bytes.now }
{
    !bytes.is_empty() && are_graphic(bytes)
}

// Whether the stem is empty, or a word other than `-`. A record has `-` for the empty one.
fn is_stem(bytes: &[u8]) -> bool
    ensures { result ≡ recorded.is_stem bytes.now }
{
    bytes.is_empty() || (is_word(bytes) && bytes != b"-".as_slice())
}

/// That the header of a record can name the selector and the stem, where the run is recorded.
pub fn check_recorded(is_recorded: bool, selector: &[u8], stem: &[u8]) -> Result<(), WordsFault>
    ensures { result ≡ recorded.checked is_recorded selector.now stem.now }
{
    if !is_recorded {
        return Ok(());
    }
    if is_word(selector) && is_stem(stem) {
        return Ok(());
    }
    Err(WordsFault::Usage)
}
