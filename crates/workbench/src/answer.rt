//! What the program answers to a line.
ghost use Rattle.std.specs.Prelude.{◌≡◌};
ghost use Rattle.workbench.specs.Answers.{complaint_number, number_of};
ghost use Rattle.workbench.specs.declared.answer.Complaint.TheVariants.{Refused};

use crate::write::RoundTrip;
use joined::record::Joined;
use refusal::reason::Refusal;

/// The record of this number was made, written as a unit and read back.
#[derive(Drop)]
pub struct Done {
    pub number: u64,
    pub trip: RoundTrip<Joined>,
}

/// Why nothing was done.
#[derive(Clone, Copy, Debug, PartialEq, Eq)]
pub enum Complaint {
    /// There is no such tile or mast.
    Refused(Refusal),
    /// The line gives no order.
    Unknown,
    /// The input as a whole is too long, and no line of it is run.
    TooLong,
}

/// What was done about a line, or why nothing was.
pub type Answer = Result<Done, Complaint>;

impl From<Refusal> for Complaint {
    ghost from_gives = { λ why complaint. complaint ≡ Refused why };

    fn from(why: Refusal) -> Self {
        Self::Refused(why)
    }
}

impl Complaint {
    /// The number that stands for this complaint.
    pub fn number(self) -> u32
        ensures { result ≡ complaint_number self }
    {
        match self {
            Complaint::Refused(why) => why.number(),
            Complaint::Unknown => 90,
            Complaint::TooLong => 91,
        }
    }
}

/// The number that stands for an answer: 0 where the order was done.
pub fn code(answer: &Answer) -> u32
    ensures { result ≡ number_of answer.now }
{
    match answer {
        Ok(_) => 0,
        Err(why) => why.number(),
    }
}
