//! The law of all runs: each function stands for the theorem that its contract states.
ghost use Rattle.acting.specs.Ends.{AcceptedActsEndOrAreCut};

/// Acts that neither device can refuse but for darkness are all performed, or power fails at one of them.
pub fn accepted_acts_end_or_are_cut()
    ensures { AcceptedActsEndOrAreCut }
{}
