// The first line of a block, read.
ghost use Rattle.std.specs.Prelude.{◌≡◌, map};
ghost use Rattle.cm_board_text.specs.Heads.{channels_word, head_words, kind_word};

use cm_base::faults::Fault;
use cm_base::words::{number_in, two};
use cm_board::board::Kind;
use cm_board::table::Head;
use cm_board::versions::is_wide;

/// What the words after `subdevice` say on a board of a version.
pub fn read_head(version: u32, words: &[&[u8]]) -> Result<Head, Fault>
    ensures { result ≡ head_words version (map (λ word. word.now) words.now) }
{
    let (kind, channels) = two(words)?;
    let kind = read_kind(kind)?;
    let channels = read_channels(version, kind, channels)?;
    Ok(Head {
        version,
        kind,
        channels,
    })
}

// What a subdevice is.
fn read_kind(word: &[u8]) -> Result<Kind, Fault>
    ensures { result ≡ kind_word word.now }
{
    if word == b"unused".as_slice() {
        Ok(Kind::Unused)
    } else if word == b"ai".as_slice() {
        Ok(Kind::Ai)
    } else if word == b"ao".as_slice() {
        Ok(Kind::Ao)
    } else if word == b"di".as_slice() {
        Ok(Kind::Di)
    } else if word == b"do".as_slice() {
        Ok(Kind::Do)
    } else if word == b"dio".as_slice() {
        Ok(Kind::Dio)
    } else {
        Err(Fault::Unknown)
    }
}

// The channels of a subdevice on a board of a version, none where it is unused.
fn read_channels(version: u32, kind: Kind, word: &[u8]) -> Result<u32, Fault>
    ensures { result ≡ channels_word version kind word.now }
{
    match kind {
        Kind::Unused => number_in(word, 0, 0),
        _ => number_in(word, 1, if is_wide(version) { 256 } else { 64 }),
    }
}
