//! The verbs that a line can begin with.
ghost use Rattle.std.specs.Prelude.{◌≡◌};
ghost use Rattle.std.specs.Result.{result_ok};
ghost use Rattle.commands.specs.Verbs.{spelling, verb_of, width};

use crate::command::OtherWord;

/// What a line begins with.
#[derive(Clone, Copy, Debug, PartialEq, Eq)]
pub enum Verb {
    Format,
    Mount,
    Begin,
    Commit,
    Abandon,
    Checkpoint,
    Close,
    Clear,
    Show,
    Mast,
    Tile,
    Restart,
}

impl Verb {
    /// All verbs.
    const ALL: [Verb; 12] = [
        Verb::Format,
        Verb::Mount,
        Verb::Begin,
        Verb::Commit,
        Verb::Abandon,
        Verb::Checkpoint,
        Verb::Close,
        Verb::Clear,
        Verb::Show,
        Verb::Mast,
        Verb::Tile,
        Verb::Restart,
    ];

    /// How the verb is written.
    fn spelling(self) -> &'static [u8]
        ensures { result.now ≡ spelling self }
    {
        match self {
            Verb::Format => b"format",
            Verb::Mount => b"mount",
            Verb::Begin => b"begin",
            Verb::Commit => b"commit",
            Verb::Abandon => b"abandon",
            Verb::Checkpoint => b"checkpoint",
            Verb::Close => b"close",
            Verb::Clear => b"clear",
            Verb::Show => b"show",
            Verb::Mast => b"mast",
            Verb::Tile => b"tile",
            Verb::Restart => b"restart",
        }
    }

    /// How many fields a line with this verb has, the verb among them.
    pub(crate) fn fields(self) -> usize
        ensures { result ≡ width self }
    {
        match self {
            Verb::Clear | Verb::Show => 2,
            Verb::Mast | Verb::Restart => 4,
            Verb::Tile => 6,
            _ => 1,
        }
    }
}

impl TryFrom<&[u8]> for Verb {
    type Error = OtherWord;

    ghost try_from_gives = { λ field r. result_ok r ≡ verb_of field.now };

    /// The verb that a field writes.
    fn try_from(field: &[u8]) -> Result<Verb, OtherWord> {
        Verb::ALL
            .iter()
            .find(|verb| field == verb.spelling())
            .copied()
            .ok_or(OtherWord)
    }
}
