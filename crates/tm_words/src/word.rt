//! What a word of a call is by itself.

ghost use Rattle.std.specs.Prelude.{◌≡◌};
ghost use Rattle.tm_words.specs.Words.{is_name, word_of};

use crate::text::Text;

/// A word behind the first.
#[derive(Drop)]
pub(crate) enum Word<'a> {
    /// A name, or the value of the option before it.
    Plain(Text<'a>),
    /// An option, with the next word as its value.
    Alone(Text<'a>),
    /// An option, and its value behind `=`.
    Joined(Text<'a>, Text<'a>),
    /// A word that no form has.
    Refused,
}

/// Whether the text can be a name or a value: it isn't empty, and doesn't begin with a dash.
fn is_name(text: &str) -> bool
    ensures { result ≡ is_name text.now }
{
    match text.as_bytes() {
        [] => false,
        [first, ..] => *first != b'-',
    }
}

/// What a word is.
#[tactic(auto, unfolding(crate::specs::Words::word_of))]
pub(crate) fn word_of(text: &str) -> Word<'_>
    ensures { result ≡ word_of text.now }
{
    if is_name(text) {
        return Word::Plain(Text::new(text));
    }
    match text.split_once('=') {
        None => Word::Alone(Text::new(text)),
        Some((option, value)) if is_name(value) => {
            Word::Joined(Text::new(option), Text::new(value))
        }
        Some(_) => Word::Refused,
    }
}
