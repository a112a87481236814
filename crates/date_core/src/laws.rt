//! Laws about dates. The functions compute nothing.
ghost use Rattle.date_core.specs.Laws.{DatesAreHad, MomentsHaveDates, NoDateLater, OneMomentEach};

/// Each moment before the year 10000 has a date of the calendar, and lies as far behind 1970-01-01 as that says; each such
/// date is had; later moments have none; and no two moments have one text.
pub fn dates_are_those_of_the_calendar()
    ensures has { MomentsHaveDates }
    ensures had { DatesAreHad }
    ensures later { NoDateLater }
    ensures one { OneMomentEach }
{}
