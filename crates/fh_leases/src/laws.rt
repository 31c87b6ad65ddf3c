//! What holds of each ask that is accepted, and of the leases at all times.

ghost use Rattle.fh_leases.specs.Part.{LeasePart};
ghost use Rattle.fh_leases.specs.Laws.{OfEachAsk, TellsOfHolders, KeepsUnnamed, IsToldOfHolder, HasOneHolder};

/// Whom an ask grants a lease has it until the moment that is answered, from whom it takes one hasn't it, and
/// nobody else's holding changes before its end.
pub fn holders_are_as_told()
    ensures { OfEachAsk TellsOfHolders }
{}

/// A lease that an ask doesn't name stays as it is.
pub fn other_leases_stay()
    ensures { OfEachAsk KeepsUnnamed }
{}

/// A lease has one last holder at most.
pub fn leases_have_one_holder()
    ensures { (part : LeasePart) → HasOneHolder part }
{}

/// Who is told as the holder at a moment has the lease until a later one, and nobody else is told.
pub fn holders_are_told()
    ensures { (part : LeasePart) → IsToldOfHolder part }
{}
