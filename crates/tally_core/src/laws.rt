//! A law about tallies. The function computes nothing.
ghost use Rattle.tally_core.specs.Tally.{EachIsCounted};

/// Of things that are counted, each is: for each of at most sixteen kinds there stand how many were of it and the number of the
/// first, and for all others together, of which there are some only beside sixteen kinds.
pub fn each_is_counted()
    ensures { EachIsCounted }
{}
