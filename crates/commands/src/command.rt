//! The commands that a line can give.
ghost use Rattle.std.specs.Prelude.{◌≡◌};
ghost use Rattle.std.specs.Result.{result_ok};
ghost use Rattle.commands.specs.Commands.{asked, ordered, contents_of};

/// A field that writes none of the words that may stand there.
#[derive(Clone, Copy, Debug, PartialEq, Eq)]
pub struct OtherWord;

/// What the unsettled words and the waiting sectors hold after a restart.
#[derive(Clone, Copy, Debug, PartialEq, Eq)]
pub enum Contents {
    /// Their settled values.
    Old,
    /// Their present values.
    New,
}

impl TryFrom<&[u8]> for Contents {
    type Error = OtherWord;

    ghost try_from_gives = { λ field r. result_ok r ≡ contents_of field.now };

    /// `old` or `new`.
    fn try_from(field: &[u8]) -> Result<Contents, OtherWord> {
        // Kept: of a match on the two words the check wants nine proofs about single bytes, and of two comparisons three about words.
        if field == b"old".as_slice() {
            Ok(Contents::Old)
        } else if field == b"new".as_slice() {
            Ok(Contents::New)
        } else {
            Err(OtherWord)
        }
    }
}

/// The fields of a record that is still to be made.
#[derive(Clone, Copy, Debug, PartialEq, Eq)]
pub enum Draft<'a> {
    /// A tile with one level for all of its samples.
    Tile {
        column: u64,
        row: u64,
        plan: u64,
        level: i16,
    },
    /// A mast, by its number and its name.
    Mast {
        number: u64,
        name: &'a [u8],
    },
}

/// A record to make, and the number that it is set under.
#[derive(Clone, Copy, Debug, PartialEq, Eq)]
pub struct Order<'a> {
    pub record: u64,
    pub draft: Draft<'a>,
}

/// What a line asks for.
#[derive(Clone, Copy, Debug, PartialEq, Eq)]
pub enum Command<'a> {
    /// Format both devices.
    Format,
    /// Mount the store.
    Mount,
    /// Open a transaction.
    Begin,
    /// Commit the open transaction.
    Commit,
    /// Abandon the open transaction.
    Abandon,
    /// Carry the ring's records home.
    Checkpoint,
    /// Close the store.
    Close,
    /// Clear the record.
    Clear(u64),
    /// Show the record.
    Show(u64),
    /// Make a tile or a mast, and set the record to it.
    Set {
        record: u64,
        draft: Draft<'a>,
    },
    /// Give both devices power again, for so many acts each.
    Restart {
        contents: Contents,
        nvm_acts: u64,
        disk_acts: u64,
    },
}

impl<'a> From<Order<'a>> for Command<'a> {
    ghost from_gives = { λ order command. asked command ≡ ordered order };

    fn from(order: Order<'a>) -> Command<'a> {
        let Order { record, draft } = order;
        Command::Set { record, draft }
    }
}
