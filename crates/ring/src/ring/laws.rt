// What the moves of a span mean for the elements of a ring.
ghost use Rattle.ring.specs.Laws.{EmptyHolds, FreesOldest, HoldsPlaces, TakesInNext};

pub fn span_laws<T>()
    ensures places { HoldsPlaces T }
    ensures free { FreesOldest T }
    ensures take_in { TakesInNext T }
    ensures set_to { EmptyHolds T }
{}
