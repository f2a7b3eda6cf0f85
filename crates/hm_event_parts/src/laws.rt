//! Laws over the units of events and over units with bytes of their own. The functions do nothing.
ghost use Rattle.hm_event_parts.specs.Laws.{AllUnitsAreLeft, NoUnitsAreAfter, OwnBytesAreKept, UnitsGoEventByEvent, UnitsStandFor};

/// The units of a tree are those of its first event, then those of the next one, and so on to the last.
pub fn units_go_by_events()
    ensures event { UnitsGoEventByEvent }
    ensures none { NoUnitsAreAfter }
    ensures all { AllUnitsAreLeft }
{}

/// A unit in code is that unit of a tree which has its bytes, and those are then its own bytes.
pub fn units_have_own_bytes()
    ensures stands { UnitsStandFor }
    ensures own { OwnBytesAreKept }
{}
