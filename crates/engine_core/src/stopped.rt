//! What a run hands out when it has ended.
ghost use Rattle.std.specs.Prelude.{◌≡◌};
ghost use Rattle.list_core.specs.ItemReader.{item_state};

use crate::ending::Ending;
use list_core::{ItemReader, Source};

/// Why a run ends before all is written.
#[derive(Drop)]
pub enum Halt<F> {
    /// The input has this fault, and the last text, which tells it, was written.
    Fault(F),
    /// The writer failed.
    WriteFault,
    /// Memory was refused.
    Memory,
}

/// What a run hands out: how it ended, the fault by which it did, and what it read from.
#[derive(Drop)]
pub struct Stopped<I, F> {
    /// How the run ended.
    pub ending: Ending,
    /// The fault that the last text tells: at `InputFault` and `ReadFault`, and at no other ending.
    pub fault: Option<F>,
    /// What the run read from, as it then stands.
    pub reader: I,
}

impl<R: Source, G: Drop, F: Drop> Stopped<ItemReader<R, G>, F> {
    /// The ending, and the source as it stands.
    pub fn into_source(self) -> (Ending, R)
        ensures ending { result.0 ≡ self.ending }
        ensures left { R.left result.1 ≡ (item_state R.left R.ending self.reader).left }
        ensures source { R.ending result.1 ≡ (item_state R.left R.ending self.reader).ending }
    {
        let Stopped {
            ending,
            fault: _,
            reader,
        } = self;
        (ending, reader.into_reader())
    }
}
