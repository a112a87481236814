//! Laws about the definitions that the contracts of this crate cite. The functions compute nothing.

ghost use Rattle.loss_core.specs.SenderLaws.{EachIsTold, MissingAreNamed};
ghost use Rattle.loss_core.specs.StreamLaws.{SamplesAddUp};

/// What a frame names missing are exactly the pairs of which no frame came in its stretch, between the newest one and its own,
/// the end of a state that another followed aside. Each pair between that of a stretch's first frame and that of a later one
/// came by then, or lies between two pairs of which the second came above the first.
pub fn losses_are_named()
    ensures missing { MissingAreNamed }
    ensures each { EachIsTold }
{}

/// Over samples between which capture times and indexes are less than half a second apart, what is said to go on and to be
/// missing adds up to the greatest index minus the first, however long samples stay away.
pub fn samples_add_up()
    ensures { SamplesAddUp }
{}
