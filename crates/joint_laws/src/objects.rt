//! Laws about what is written as JSON, by the words of the kit's reader. The functions compute nothing.
ghost use Rattle.joint_laws.specs.JsonText.{CaptureFaultsAreJson, FaultsAreJson, ListFaultsAreJson, MembersAreJson};

/// Each text that is allowed for the members of a data set which octets spell is one value of JSON (RFC 8259), and no object
/// in it has a name twice.
pub fn members_are_json()
    ensures { MembersAreJson }
{}

/// The objects of faults are lines of JSON: of a faulty frame, of a bad line of a list, and of a capture.
pub fn faults_are_json()
    ensures frames { FaultsAreJson }
    ensures lists { ListFaultsAreJson }
    ensures captures { CaptureFaultsAreJson }
{}
