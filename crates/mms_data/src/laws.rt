//! Laws about the definitions that the contracts of this crate cite. The functions compute nothing.

ghost use Rattle.mms_data.specs.Laws.{AllWrittenAreShortest, AllWrittenAreSpelled, FaultIsOne, MembersAreOne, MembersElseFault, MembersOrFault};
ghost use Rattle.mms_data.specs.Laws.{ReadingIsTrue, ReadingTells, SeenIsOne, SeenIsSpelled, SpelledIsSpellable, WrittenIsShortest, WrittenIsSpelled};

/// Octets spell one list of members, or have one first fault, and never both.
pub fn one_reading()
    ensures members { MembersAreOne }
    ensures either { MembersOrFault }
    ensures else_fault { MembersElseFault }
    ensures fault { FaultIsOne }
{}

/// The function on octets, by which proofs compute, gives the members that octets spell, and the first fault that
/// they have; and the octets spell the members that it gives, and have the fault that it gives as their first.
pub fn reading_tells()
    ensures told { ReadingTells }
    ensures only { ReadingIsTrue }
{}

/// The written form of a value that has a spelling spells it.
pub fn written_is_spelled()
    ensures value { WrittenIsSpelled }
    ensures members { AllWrittenAreSpelled }
{}

/// No spelling of a value has fewer octets than its written form.
pub fn written_is_shortest()
    ensures value { WrittenIsShortest }
    ensures members { AllWrittenAreShortest }
{}

/// A value that octets spell has a spelling in the sense of its fields: what is read can be written.
pub fn spelled_is_spellable()
    ensures { SpelledIsSpellable }
{}

/// The octets that members are seen in spell the members that they stand for, and no others.
pub fn seen_is_spelled()
    ensures spelled { SeenIsSpelled }
    ensures only { SeenIsOne }
{}
