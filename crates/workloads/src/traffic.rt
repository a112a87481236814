//! The lines of a list.

use crate::chance::Chance;
use crate::feed::Maker;
use crate::sender::{LINE_MOMENT, Sender, digit, write_moment};
use std::alloc::{AllocError, Global};

/// The time of the first line, in microseconds.
const START: u64 = 1_700_000_000_000_000;

/// After how long no frame is awaited any more, in microseconds.
const PAUSE: u64 = 2_500_000;

/// How many lines a mode lasts.
const MODE_LINES: u64 = 4000;

/// What happens how often, in a thousand lines.
#[derive(Clone, Copy)]
pub struct Habits {
    /// A sender goes on to its next state.
    pub changes: u32,
    /// A frame comes once more.
    pub repeats: u32,
    /// A frame or a sample is lost.
    pub losses: u32,
    /// A frame of an earlier state comes late.
    pub late: u32,
    /// A line of the clock comes in between.
    pub clocks: u32,
    /// Nothing comes for longer than a lifetime.
    pub pauses: u32,
    /// A digit of the frame is another one.
    pub faults: u32,
    /// A frame is simulated.
    pub simulated: u32,
    /// Among how many numbers a sender takes another one at each frame; 0: it keeps its own.
    pub names: u32,
    /// The most microseconds between two lines.
    pub longest_wait: u32,
}

/// What a bay sends: most frames are retransmissions.
pub const USUAL: Habits = Habits {
    changes: 20,
    repeats: 10,
    losses: 5,
    late: 2,
    clocks: 5,
    pauses: 0,
    faults: 0,
    simulated: 0,
    names: 0,
    longest_wait: 8000,
};

/// A count, if it is below 2^32, and else the greatest number that is.
pub fn few(count: usize) -> u32 {
    count.min(u32::MAX as usize) as u32
}

/// The lines of a list, from senders that are drawn by chance.
#[derive(Drop)]
pub struct Traffic {
    senders: Vec<Sender, Global>,
    habits: Habits,
    chance: Chance,
    now: u64,
    lines: u64,
    left: u64,
}

impl Traffic {
    pub fn new(
        senders: Vec<Sender, Global>,
        habits: Habits,
        chance: Chance,
        lines: u64,
    ) -> Traffic {
        Traffic {
            senders,
            habits,
            chance,
            now: START,
            lines,
            left: lines,
        }
    }

    // Whether what happens so often in a thousand lines happens now.
    fn happens(&mut self, often: u32) -> bool {
        often > 0 && self.chance.below(1000) < u64::from(often)
    }

    // Appends a line with a time.
    fn append_at(
        &self,
        made: &mut Vec<u8, Global>,
        line: &[u8],
        from: usize,
    ) -> Result<(), AllocError> {
        let before = made.len();
        made.extend_from_slice(line)?;
        write_moment(made, before.saturating_add(from), self.now);
        Ok(())
    }

    // Appends the line of a mode where it is time for one, and answers whether it is.
    fn append_mode(&mut self, made: &mut Vec<u8, Global>) -> Result<bool, AllocError> {
        if self.habits.simulated == 0 || self.left % MODE_LINES != 0 {
            return Ok(false);
        }
        if self.left / MODE_LINES % 4 == 3 {
            self.append_at(made, b"M 0000000000000000 on\n", 2)?;
        } else {
            self.append_at(made, b"M 0000000000000000 off\n", 2)?;
        }
        Ok(true)
    }

    // Has a sender go on.
    fn go_on(&mut self, at: usize) {
        let draw = (self.chance.below(1000) % 1000) as u32;
        let is_simulated = self.happens(self.habits.simulated);
        let number = self.chance.below(self.habits.names);
        let Habits {
            changes,
            repeats,
            losses,
            late,
            simulated,
            names,
            ..
        } = self.habits;
        let to_repeats = changes.saturating_add(repeats);
        let to_losses = to_repeats.saturating_add(losses);
        let to_late = to_losses.saturating_add(late);
        let Some(sender) = self.senders.get_mut(at) else {
            return;
        };
        sender.look_back(0);
        if draw < changes {
            sender.change(&mut self.chance);
        } else if draw < to_repeats {
            // The frame comes as it is.
        } else if draw < to_losses {
            sender.go_on(2);
            sender.sample(3, &mut self.chance);
        } else if draw < to_late {
            sender.look_back(1);
        } else {
            sender.go_on(1);
            sender.sample(0, &mut self.chance);
        }
        if simulated > 0 {
            sender.simulate(is_simulated);
        }
        if names > 0 {
            sender.rename(number);
        }
    }

    // Appends the line of a sender.
    fn append_frame(&mut self, made: &mut Vec<u8, Global>, at: usize) -> Result<(), AllocError> {
        let before = made.len();
        if let Some(sender) = self.senders.get(at) {
            self.append_at(made, &sender.line, LINE_MOMENT)?;
        }
        if self.happens(self.habits.faults) {
            let digits = (made.len() - before.min(made.len())).saturating_sub(20);
            let place = before
                .saturating_add(19)
                .saturating_add(self.chance.below(few(digits)) as usize);
            let other = digit(self.chance.bits());
            if let Some(octet) = made.get_mut(place) {
                *octet = other;
            }
        }
        Ok(())
    }
}

impl Maker for Traffic {
    fn append(&mut self, made: &mut Vec<u8, Global>) -> Result<bool, AllocError> {
        if self.left == 0 {
            return Ok(false);
        }
        if self.left == self.lines {
            made.extend_from_slice(b"V2\n")?;
        }
        self.left -= 1;
        let wait = self.chance.below(self.habits.longest_wait);
        let pause = if self.happens(self.habits.pauses) {
            PAUSE
        } else {
            0
        };
        self.now = self.now.saturating_add(wait.saturating_add(pause));
        if self.append_mode(made)? {
            return Ok(true);
        }
        if self.happens(self.habits.clocks) {
            self.append_at(made, b"C 0000000000000000\n", 2)?;
            return Ok(true);
        }
        let at = self.chance.below(few(self.senders.len())) as usize;
        self.go_on(at);
        self.append_frame(made, at)?;
        Ok(true)
    }
}
