//! The jobs that are timed.
ghost use Rattle.std.specs.Prelude.{◌≡◌, IfOk};
ghost use Rattle.list_core.specs.declared.device.InputEnd.{InputEnd};

use crate::capture::Records;
use crate::chance::Chance;
use crate::digest::{Digest, folded};
use crate::feed::{Feed, feed_of};
use crate::packets::Packets;
use crate::script::Script;
use crate::sender::{Sender, behind};
use crate::shapes::{
    ARP, BAY, FLAGS, LLDP, LOOSE, MMS, NESTS, PTP, QUOTES, SAMPLE, SAMPLES, SMALL, Shape, TREE,
};
use crate::traffic::{Habits, Traffic, USUAL, few};
use ber_core::Octets;
use block_core::Block;
use capture_core::PacketReader;
use engine_core::{Ending, Form, Stopped, Style, status};
use exchange_engines::{PLAINLY, publish, replay, replay_over, watch, watch_over};
use frame_core::SkipOther;
use frame_engines::{check, import, rewrite, show};
use inventory_engine::blocks;
use std::alloc::{AllocError, Global};

/// What a job works on: lists from these numbers by chance, of so many lines, and what tells its results.
#[derive(Drop)]
pub struct Work {
    pub alloc: Global,
    pub chance: Chance,
    pub lines: u64,
    pub told: u64,
}

/// The events of a capture, of which frames of other protocols are passed over.
type Passed = SkipOther<PacketReader<Feed<Packets>, Global>, Global>;

/// So many senders of lines of this shape, numbered from this number on.
#[derive(Clone, Copy)]
struct Group {
    shape: Shape,
    from: u64,
    count: u64,
}

// So many senders.
fn so_many(shape: Shape, from: u64, count: u64) -> Group {
    Group { shape, from, count }
}

// The number in a sender's texts, from this place on.
fn named(alloc: Global, text: &[u8], number: u64) -> Result<Octets<Global>, AllocError> {
    let mut octets = Vec::new(alloc);
    octets.extend_from_slice(text)?;
    let mut left = number;
    if let Some(digits) = behind(&mut octets, 3).first_chunk_mut::<5>() {
        for digit in digits.iter_mut().rev() {
            *digit = b'0' + (left % 10) as u8;
            left /= 10;
        }
    }
    Ok(Octets::from(octets))
}

// The control blocks of the bays of these numbers.
fn bays(alloc: Global, count: u64) -> Result<Vec<Block<Global>, Global>, AllocError> {
    let mut bays = Vec::new(alloc);
    for number in 0..count {
        bays.push(Block {
            app_id: (number % 65536) as u16,
            gocb_ref: named(alloc, b"BAY00000PROT/LLN0$GO$gcbTrip01", number)?,
            dat_set: named(alloc, b"BAY00000PROT/LLN0$dsTrip01", number)?,
            go_id: Some(named(alloc, b"BAY00000_TRIP", number)?),
            conf_rev: 12,
            entries: 20,
        })?;
    }
    Ok(bays)
}

impl Work {
    // Senders by their groups.
    fn senders(&mut self, groups: &[Group]) -> Result<Vec<Sender, Global>, AllocError> {
        let mut senders = Vec::new(self.alloc);
        for group in groups {
            for number in 0..group.count {
                let number = group.from.saturating_add(number);
                senders.push(Sender::new(self.alloc, group.shape, number, &mut self.chance)?)?;
            }
        }
        Ok(senders)
    }

    // Notes what was written, and how that ended.
    fn note(&mut self, ending: Ending, digest: Digest) -> Result<(), AllocError> {
        self.told = folded(self.told, digest.told()?);
        self.told = folded(self.told, u64::from(status(&ending)));
        Ok(())
    }

    // A list of what these senders send.
    fn list(&mut self, groups: &[Group], habits: Habits) -> Result<Feed<Traffic>, AllocError>
        ensures { IfOk result (λ list. list.ending ≡ InputEnd.Open) }
    {
        let senders = self.senders(groups)?;
        let chance = Chance::new(self.chance.bits());
        Ok(feed_of(
            self.alloc,
            Traffic::new(senders, habits, chance, self.lines),
        ))
    }

    /// Shows what the bays of a station send, with some samples between.
    pub fn show(&mut self) -> Result<(), AllocError> {
        let list = self.list(&[so_many(BAY, 0, 18), so_many(SAMPLE, 0, 2)], USUAL)?;
        let mut digest = Digest::new(self.alloc)?;
        let (ending, _) = show(self.alloc, list, &mut digest);
        self.note(ending, digest)
    }

    /// Checks a list before acceptance, and rewrites another one: most frames are canonical, some are not, a few have errors.
    pub fn accept(&mut self) -> Result<(), AllocError> {
        let groups = [
            so_many(BAY, 0, 80),
            so_many(SMALL, 80, 8),
            so_many(LOOSE, 88, 4),
            so_many(SAMPLES, 0, 7),
            so_many(FLAGS, 99, 1),
        ];
        let habits = Habits {
            faults: 10,
            ..USUAL
        };
        let list = self.list(&groups, habits)?;
        let mut digest = Digest::new(self.alloc)?;
        let (ending, _) = check(self.alloc, list, &mut digest);
        self.note(ending, digest)?;
        let list = self.list(&groups, habits)?;
        let mut digest = Digest::new(self.alloc)?;
        let (ending, _) = rewrite(self.alloc, list, &mut digest);
        self.note(ending, digest)
    }

    // Imports a capture of a station.
    fn import(&mut self) -> Result<(), AllocError> {
        let senders = self.senders(&[so_many(BAY, 0, 200), so_many(SAMPLE, 0, 10)])?;
        let chance = Chance::new(self.chance.bits());
        let records = Records::new(self.alloc, &senders, chance, self.lines)?;
        let mut digest = Digest::new(self.alloc)?;
        let (ending, _) = import(self.alloc, feed_of(self.alloc, records), &mut digest);
        self.note(ending, digest)
    }

    // Replays a list of what these senders send by so many bays of a station.
    fn replay(&mut self, groups: &[Group], habits: Habits, count: u64) -> Result<(), AllocError> {
        let list = self.list(groups, habits)?;
        let bays = bays(self.alloc, count)?;
        let mut digest = Digest::new(self.alloc)?;
        let (ending, _) = replay(self.alloc, list, bays, &mut digest);
        self.note(ending, digest)
    }

    /// Imports a capture of a station, and replays two lists by its control blocks: what one bay sends, and what all send, with
    /// simulated frames.
    pub fn station(&mut self) -> Result<(), AllocError> {
        self.import()?;
        self.replay(&[so_many(BAY, 0, 8)], Habits { pauses: 1, ..USUAL }, 8)?;
        let habits = Habits {
            simulated: 100,
            longest_wait: 400,
            ..USUAL
        };
        self.replay(&[so_many(BAY, 0, 210)], habits, 200)
    }

    // Watches a stream in a list of what these senders send.
    fn watch(&mut self, groups: &[Group], longest_wait: u32) -> Result<(), AllocError> {
        let habits = Habits {
            losses: 2,
            changes: 0,
            repeats: 0,
            late: 0,
            clocks: 0,
            longest_wait,
            ..USUAL
        };
        let list = self.list(groups, habits)?;
        let mut digest = Digest::new(self.alloc)?;
        let (ending, _) = watch(self.alloc, list, 4000, b"MU00000", &mut digest);
        self.note(ending, digest)
    }

    /// Watches a stream alone, one of six in a list, and one of two with eight ASDUs a frame.
    pub fn samples(&mut self) -> Result<(), AllocError> {
        self.watch(&[so_many(SAMPLE, 0, 1)], 500)?;
        self.watch(&[so_many(SAMPLE, 0, 6)], 80)?;
        self.watch(&[so_many(SAMPLES, 0, 2)], 2000)
    }

    // The events of a capture of what these senders send, with packets of other protocols between, which are passed over.
    fn packets(&mut self, groups: &[Group], longest_wait: u32) -> Result<Passed, AllocError> {
        let senders = self.senders(groups)?;
        let others = self.senders(&[
            so_many(ARP, 0, 1),
            so_many(LLDP, 0, 1),
            so_many(PTP, 0, 1),
            so_many(TREE, 0, 1),
            so_many(MMS, 0, 1),
        ])?;
        let chance = Chance::new(self.chance.bits());
        let packets = Packets::new(
            self.alloc,
            &senders,
            &others,
            chance,
            longest_wait,
            self.lines,
        )?;
        let capture = feed_of(self.alloc, packets);
        Ok(SkipOther::new(PacketReader::new(self.alloc, capture)))
    }

    /// Replays a capture of a station by its control blocks, and watches one of two streams of eight ASDUs a frame in a capture.
    pub fn capture(&mut self) -> Result<(), AllocError> {
        let events = self.packets(&[so_many(BAY, 0, 200)], 8_000_000)?;
        let bays = bays(self.alloc, 200)?;
        let mut digest = Digest::new(self.alloc)?;
        let Stopped { ending, .. } = replay_over(
            self.alloc,
            Style::Lines(Form::Text),
            PLAINLY,
            events,
            bays,
            &mut [],
            &mut digest,
        );
        self.note(ending, digest)?;
        let events = self.packets(&[so_many(SAMPLES, 0, 2)], 2_000_000)?;
        let mut digest = Digest::new(self.alloc)?;
        let Stopped { ending, .. } = watch_over(
            self.alloc,
            Style::Lines(Form::Text),
            events,
            4000,
            b"MU00000",
            &mut digest,
        );
        self.note(ending, digest)
    }

    /// Publishes a long script.
    pub fn publish(&mut self) -> Result<(), AllocError> {
        let chance = Chance::new(self.chance.bits());
        let script = feed_of(self.alloc, Script::new(self.alloc, chance, self.lines)?);
        let mut digest = Digest::new(self.alloc)?;
        let (ending, _) = publish(self.alloc, script, &mut digest);
        self.note(ending, digest)
    }

    // Lists the control blocks and streams of what these senders send.
    fn blocks(&mut self, groups: &[Group], habits: Habits) -> Result<(), AllocError> {
        let list = self.list(groups, habits)?;
        let mut digest = Digest::new(self.alloc)?;
        let (ending, _) = blocks(self.alloc, list, &mut digest);
        self.note(ending, digest)
    }

    /// Lists the blocks and streams of an unknown station and of traffic that was made to harm, shows what is awkward to show,
    /// and replays by very many blocks, with a line of the clock between all frames.
    pub fn unknown(&mut self) -> Result<(), AllocError> {
        self.blocks(
            &[
                so_many(BAY, 0, 300),
                so_many(SAMPLE, 0, 24),
                so_many(SAMPLES, 24, 4),
            ],
            USUAL,
        )?;
        let many = Habits {
            names: few(self.lines as usize / 8),
            ..USUAL
        };
        self.blocks(&[so_many(SMALL, 0, 1)], many)?;
        let lines = self.lines;
        self.lines = lines / 10;
        let faulty = Habits {
            faults: 900,
            ..USUAL
        };
        let list = self.list(
            &[
                so_many(FLAGS, 0, 1),
                so_many(NESTS, 1, 1),
                so_many(QUOTES, 2, 1),
                so_many(BAY, 3, 3),
            ],
            faulty,
        )?;
        let mut digest = Digest::new(self.alloc)?;
        let (ending, _) = show(self.alloc, list, &mut digest);
        self.note(ending, digest)?;
        self.lines = lines / 2;
        let clocks = Habits {
            clocks: 500,
            ..USUAL
        };
        self.replay(&[so_many(BAY, 0, 100)], clocks, lines / 20)?;
        self.lines = lines;
        Ok(())
    }
}
