//! Laws of the definitions. Each is the contract of a function that does nothing.

ghost use Rattle.status.specs.Laws.{NothingFalls, BucketsGrow};

/// Whatever is counted, no number falls. Of two buckets the one with the greater bound has counted at least as many.
pub fn counter_laws()
    ensures nothing_falls { NothingFalls }
    ensures buckets_grow { BucketsGrow }
{}
