//! Why a line says a number other than 0.
ghost use Rattle.std.specs.Prelude.{◌≡◌};
ghost use Rattle.printing.specs.Said.{complaint_number};
ghost use Rattle.printing.specs.declared.complaint.Complaint.TheVariants as complaint;

use refusal::reason::Refusal;

/// The answer to a line that was not done.
#[derive(Clone, Copy, PartialEq, Eq, Debug)]
pub enum Complaint {
    /// The call that it asked for was refused.
    Refused(Refusal),
    /// It has the form of no command.
    AnotherForm,
    /// The script is too long, so that no line of it is run.
    TooLong,
}

impl Complaint {
    /// The number that a line says of it.
    pub fn number(self) -> u32
        ensures { result ≡ complaint_number self }
    {
        match self {
            Complaint::Refused(refusal) => refusal.number(),
            Complaint::AnotherForm => 90,
            Complaint::TooLong => 91,
        }
    }
}

impl From<Refusal> for Complaint {
    ghost from_gives = { λ e c. c ≡ complaint.Refused e };

    fn from(refusal: Refusal) -> Complaint {
        Complaint::Refused(refusal)
    }
}
