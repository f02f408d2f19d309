//! The book, and what is promised of every list of calls and restarts.
#![tactic(auto)]

ghost use Rattle.book.specs.Promise.{EveryRunKeepsTheBook};
ghost use Rattle.order.specs.Order.{kind_of};

use kinds::kind::RecordKind;

/// Names the promise, so that the check asks for its proof: from an accepted format on, every list of calls and restarts on any
/// two devices and any record kind keeps the book, with power failing at any act and coming back in any allowed way.
pub fn every_run_keeps_the_book<K: RecordKind>()
    ensures { EveryRunKeepsTheBook (kind_of K.RecordKind.unit K.RecordKind.reads) }
{}
