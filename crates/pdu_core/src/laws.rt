//! Laws about the definitions that the contracts of this crate cite. The functions compute nothing.

ghost use Rattle.pdu_core.specs.Laws.{FaultIsOne, PduElseFault, PduIsOne, PduOrFault, ReadingIsTrue, ReadingTells, SpelledIsSpellable, WrittenIsSpelled};
ghost use Rattle.pdu_core.specs.SampledLaws.{SeenIsOne, SeenIsSpelled, SpelledSvIsSpellable, SvFaultIsOne, SvPduElseFault, SvPduIsOne, SvPduOrFault, SvReadingIsTrue, SvReadingTells, WrittenSvIsSpelled};

use std::alloc::Allocator;

/// Octets spell one APDU, or have one first fault, and never both.
pub fn one_reading<A: Allocator>()
    ensures pdu { PduIsOne A }
    ensures either { PduOrFault A }
    ensures else_fault { PduElseFault A }
    ensures fault { FaultIsOne }

    // The same of Sampled Values.
    ensures sv_pdu { SvPduIsOne A }
    ensures sv_either { SvPduOrFault A }
    ensures sv_else_fault { SvPduElseFault A }
    ensures sv_fault { SvFaultIsOne }
{}

/// The functions on octets, of which the clauses `exact` speak, give the values of the APDU that octets spell, and the first
/// fault that they have; and what they give stands in the octets.
pub fn reading_tells<A: Allocator>()
    ensures told { ReadingTells A }
    ensures only { ReadingIsTrue A }

    // The same of Sampled Values.
    ensures sv_told { SvReadingTells A }
    ensures sv_only { SvReadingIsTrue A }
{}

/// The written form of an APDU that has a spelling is one, unless its contents have more than 4294967295 octets.
pub fn written_is_spelled<A: Allocator>()
    ensures goose { WrittenIsSpelled A }
    ensures sv { WrittenSvIsSpelled A }
{}

/// An APDU that octets spell has a spelling in the sense of its fields: what is read can be written.
pub fn spelled_is_spellable<A: Allocator>()
    ensures goose { SpelledIsSpellable A }
    ensures sv { SpelledSvIsSpellable A }
{}

/// The octets that ASDUs are seen in spell the ASDUs that they stand for, and no others.
pub fn seen_is_spelled<A: Allocator>()
    ensures spelled { SeenIsSpelled A }
    ensures only { SeenIsOne A }
{}
