//! Whether every frame of a state can be written.

ghost use Rattle.std.specs.Prelude.{◌≡◌, ◌<◌, ◌≤◌, ◌+◌, ◌^◌, ◌==◌, ℕ, if◌then◌else◌, length, true, false};
ghost use Rattle.publish_core.specs.Table.{AreSteps};
ghost use Rattle.publish_core.specs.computed.Sizes.{StepFits};

use crate::frames::number_length;
use crate::table::Table;

// The most octets of an APDU, and the one octet of the sequence number 0.
const MOST_APDU_AND_NUMBER: usize = 1493;

// The sequence number of the longest frame of a step: before the last step that of its one frame, at the last step the
// greatest.
fn longest_number(step: usize, steps: usize) -> u32
    requires { step < 2 ^ 32 }
    ensures { result ≡ (if step + 1 == steps then 4294967295 else step) }
{
    if step + 1 == steps {
        u32::MAX
    } else {
        step as u32
    }
}

// Whether every frame of a state can be written, the first and each retransmission, where the APDU of the first has so many
// octets. The frames differ in the lifetime and the sequence number alone. Each step before the last has one frame, whose
// sequence number is the position of the step; of the frames of the last step the longest is one with the greatest sequence
// number. So one frame a step is judged, by its octets more than those of the first.
pub fn every_frame_fits(table: &Table, apdu: usize) -> bool
    requires { apdu ≤ 1600 }
    ensures fit { result ≡ true → (i : ℕ) → i < length table.now → StepFits table.now apdu i }
    ensures long { result ≡ false → (i : ℕ) × (i < length table.now) × ¬ StepFits table.now apdu i }
    ensures steps { AreSteps table.now }
{
    let steps = table.len();
    let most = MOST_APDU_AND_NUMBER + number_length(table.at(0).live_ms);
    for i in 0..steps {
        let sequence = longest_number(i, steps);
        let octets = apdu + number_length(table.at(i).live_ms) + number_length(sequence);
        if most < octets {
            return false;
        }
    }
    true
}
