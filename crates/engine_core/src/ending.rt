//! How an engine ends, and the exit status of each ending.
ghost use Rattle.std.specs.Prelude.{◌≡◌};
ghost use Rattle.engine_core.specs.Ending.{status_of};

/// How an engine ends.
#[derive(Clone, Copy, Debug, PartialEq, Eq)]
pub enum Ending {
    /// The whole input was answered, and nothing was found.
    Done,
    /// The whole input was answered, and something was found.
    Findings,
    /// The input breaks the rules of its lines: the last line written says where and how.
    InputFault,
    /// The reader failed: the last line written says where.
    ReadFault,
    /// The writer failed: a prefix of the text was written.
    WriteFault,
    /// Memory was refused: whole lines of the earlier events were written.
    Memory,
}

/// The exit status of an ending: 0 done, 1 findings, 3 input fault, 4 read or write fault,
/// 5 want of memory. (2 is a fault of the command line, which has no ending.)
pub fn status(ending: &Ending) -> u8
    ensures { result ≡ status_of ending.now }
{
    match ending {
        Ending::Done => 0,
        Ending::Findings => 1,
        Ending::InputFault => 3,
        Ending::ReadFault | Ending::WriteFault => 4,
        Ending::Memory => 5,
    }
}
