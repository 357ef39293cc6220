//! Laws of the transactions and the state that stands, each shown by a function that does nothing.

ghost use Rattle.spur_bus.specs.Agrees.{EmptyAgree, EmptyServe, OwnedIsFree};
ghost use Rattle.spur_bus.specs.Stand.{BusIsCarried, BusIsCarriedUntold, BusSteps, ClaimIsTagged, FlushIsTagged, ReadIsTagged, WriteBackIsTagged};

/// Caches that hold nothing agree, and with every memory.
pub fn empty_caches_agree()
    ensures agree { EmptyAgree }
    ensures serves { EmptyServe }
{}

/// What the memory has of a block that a cache owns is of no account.
pub fn owned_memory_is_free()
    ensures { OwnedIsFree }
{}

/// A call of the bus is one step of the state that stands, and its entry is carried from the state
/// before it to the state after it, where the tags allow it and it is needed. From a valid state it is
/// carried where the swap is not told, too.
pub fn steps_are_carried()
    ensures steps { BusSteps }
    ensures carried { BusIsCarried }
    ensures untold { BusIsCarriedUntold }
{}

/// The tags allow the entry of a claim.
pub fn claim_is_tagged()
    ensures { ClaimIsTagged }
{}

/// The tags allow the entry of a write-back.
pub fn write_back_is_tagged()
    ensures { WriteBackIsTagged }
{}

/// The tags allow the entry of a read, where the layer is the address's and the tables let it.
pub fn read_is_tagged()
    ensures { ReadIsTagged }
{}

/// The tags allow the entry of a flush, where the page is leaving.
pub fn flush_is_tagged()
    ensures { FlushIsTagged }
{}
