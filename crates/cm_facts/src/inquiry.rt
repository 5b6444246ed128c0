// What the program can be asked, and which of it its arguments name.
ghost use Rattle.std.specs.Prelude.{◌≡◌};
ghost use Rattle.cm_base.specs.Words.{listed};
ghost use Rattle.cm_facts.specs.Inquiries as spec;

/// What the program can be asked of a text.
#[derive(Clone, Copy)]
pub enum Inquiry {
    /// The facts of its board and of its signals.
    Describe,
}

/// Returns the inquiry that these arguments name, if they name one.
pub fn inquiry_of(words: &[String]) -> Option<Inquiry>
    ensures { result ≡ spec.inquiry_of words.now }
{
    match words {
        [word] => named(word.as_str().as_bytes()),
        _ => None,
    }
}

fn named(word: &[u8]) -> Option<Inquiry>
    ensures { result ≡ listed spec.table word.now }
{
    if word == b"describe".as_slice() {
        Some(Inquiry::Describe)
    } else {
        None
    }
}
