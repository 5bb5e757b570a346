//! The commands, by their first words.

ghost use Rattle.std.specs.Prelude.{◌≡◌};
ghost use Rattle.tm_words.specs.Command.{first_word, kind_of};

/// The commands.
#[derive(Clone, Copy)]
pub(crate) enum Kind {
    Trace,
    Record,
    Live,
    Points,
    Replay,
    Make,
    Load,
}

const KINDS: [Kind; 7] = [
    Kind::Trace,
    Kind::Record,
    Kind::Live,
    Kind::Points,
    Kind::Replay,
    Kind::Make,
    Kind::Load,
];

impl Kind {
    fn first_word(self) -> &'static str
        ensures { result.now ≡ first_word self }
    {
        match self {
            Kind::Trace => "trace",
            Kind::Record => "record",
            Kind::Live => "live",
            Kind::Points => "points",
            Kind::Replay => "replay",
            Kind::Make => "make",
            Kind::Load => "load",
        }
    }
}

/// The command that a first word chooses.
#[tactic(auto, unfolding(crate::specs::Command::kind_of))]
pub(crate) fn kind_of(word: &str) -> Option<Kind>
    ensures { result ≡ kind_of word.now }
{
    KINDS.iter().copied().find(|kind| kind.first_word() == word)
}
