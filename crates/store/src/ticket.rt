//! The ticket of a transaction.
ghost use Rattle.std.specs.Prelude.{◌≡◌};
ghost use Rattle.store.specs.Returned.{hands_back};

use refusal::reason::Refusal;

/// What begin hands out, and what must go back: a ticket that is dropped unspent is refused by the check. It does not name
/// its store.
// Kept: a plain number whose drop demands that it was spent, the form that the project's rules name; so the clauses ask for it.
pub struct Ticket {
    /// 1 until the ticket is spent, then 0.
    pub(crate) live: u64,
}

impl Drop for Ticket {
    fn drop(self)
        requires { self.live ≡ 0 }
    {
        let Ticket { live: _ } = self;
    }
}

/// Why a commit is refused, and what became of the ticket.
pub enum NotCommitted {
    /// The ticket comes back with the refusal: the transaction may be tried again, or abandoned.
    Back(Refusal, Ticket),
    /// Power is gone, and the ticket is spent.
    Spent(Refusal),
}

/// Whether a commit that is refused so hands the ticket back.
pub(crate) fn hands_back(reason: Refusal) -> bool
    ensures { result ≡ hands_back reason }
{
    matches!(
        reason,
        Refusal::NotMounted | Refusal::NotOpen | Refusal::RingFull
    )
}
