//! Laws of objects and of their faults, each shown by a function that does nothing.

ghost use Rattle.spur_object.specs.Laws.{NoObjectOfTwo, ObjectsAreSmall, ObjectsHaveNoFault, OneFault, PlacesAreJudged, PlacesAreSmall};

/// No bytes begin with the objects of two units.
pub fn no_object_of_two()
    ensures { NoObjectOfTwo }
{}

/// An object has no fault.
pub fn objects_have_no_fault()
    ensures { ObjectsHaveNoFault }
{}

/// No bytes have two faults.
pub fn one_fault()
    ensures { OneFault }
{}

/// Where a fault may be, by its kind.
pub fn places_are_judged()
    ensures { PlacesAreJudged }
{}

/// The object of a unit has at most 999,540 bytes (`objects`), and no fault stands behind that place (`places`).
pub fn objects_are_small()
    ensures objects { ObjectsAreSmall }
    ensures places { PlacesAreSmall }
{}
