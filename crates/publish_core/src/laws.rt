//! Laws about the definitions that the contracts of this crate cite. The functions compute nothing.

ghost use Rattle.publish_core.specs.computed.Judgement.{ChangesAreJudged};
ghost use Rattle.publish_core.specs.Laws.{AnswersAreOne, AnswersAreThere, AnswersStay, FramesCarryTheirChange, NumbersGoOn, PollsGive};

use std::alloc::Allocator;

/// Every list of calls has one list of answers, and the answer to a call does not depend on later calls.
pub fn answers_are_one<A: Allocator>()
    ensures there { AnswersAreThere A }
    ensures one { AnswersAreOne A }
    ensures stay { AnswersStay A }
{}

/// A poll gives the next frame of the newest state exactly where it is due, and no other frame; before any change it
/// gives none.
pub fn polls_give_the_next_frame()
    ensures { PollsGive }
{}

/// Numbers begin as they are said to, and each is followed by the next one, 4294967295 by 1.
pub fn numbers_go_on()
    ensures { NumbersGoOn }
{}

/// A frame carries the values and the time of change of its own state's change, and comes no earlier than that.
pub fn frames_carry_their_change()
    ensures { FramesCarryTheirChange }
{}

/// Every change is accepted, or refused for one reason, and never both.
pub fn changes_are_judged<A: Allocator>()
    ensures { ChangesAreJudged A }
{}
