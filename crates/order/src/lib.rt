//! A store in order, and that every call keeps it so. There is no code here: each function names what holds of the calls of a
//! store of any kind of record, so that the check asks for its proof.
#![tactic(auto)]

ghost use Rattle.order.specs.Order.{kind_of, WritesUnits, OnlyDarknessStopsCalls, CallsKeepOrder, RefusalsChangeNothing, RestartsGiveOrder};

use kinds::kind::RecordKind;

/// On a store in order only darkness stops a call: its devices refuse no other act of it.
pub fn only_darkness_stops_calls<K: RecordKind>()
    ensures { OnlyDarknessStopsCalls (kind_of K.RecordKind.unit K.RecordKind.reads) }
{}

/// Every call leaves the store in order, and with it what the next call rests on.
pub fn calls_keep_order<K: RecordKind>()
    ensures units { WritesUnits (kind_of K.RecordKind.unit K.RecordKind.reads) }
    ensures order { CallsKeepOrder (kind_of K.RecordKind.unit K.RecordKind.reads) }
{}

/// A refused call, but for darkness, leaves the present contents of both devices as they were.
pub fn refusals_change_nothing<K: RecordKind>()
    ensures { RefusalsChangeNothing (kind_of K.RecordKind.unit K.RecordKind.reads) }
{}

/// A restart gives a store in order, whatever its devices hold.
pub fn restarts_give_order()
    ensures { RestartsGiveOrder }
{}
