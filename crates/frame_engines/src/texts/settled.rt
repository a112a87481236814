//! Whether the array of members is settled: a float has several texts, everything else has one.
ghost use Rattle.std.specs.Prelude.{◌≡◌};
ghost use Rattle.mms_data.specs.Meaning.{left as still_to_come, meaning};
ghost use Rattle.frame_engines.specs.computed.SettledMembers.{are_settled, is_settled};

use mms_data::{Members, View};

// Whether a value is no float, and holds none.
#[cycle(settled)]
fn is_member_settled(view: &View<'_>) -> bool
    ensures { result ≡ is_settled (meaning view.now) }
{
    match view {
        View::Floating(_) => false,
        View::Array(members) => are_members_settled(*members),
        View::Structure(members) => are_members_settled(*members),
        _ => true,
    }
}

/// Whether no float stands in members, at any depth.
#[cycle(settled)]
pub(crate) fn are_members_settled(members: Members<'_>) -> bool
    ensures { result ≡ are_settled (still_to_come members.entry) }
{
    let mut others = members;
    'members: loop {
        let Some(member) = others.next() else {
            return true;
        };
        if !is_member_settled(&member) {
            return false;
        }
    }
}
