//! What tells senders and streams apart.

ghost use Rattle.std.specs.Prelude.{◌≡◌};
ghost use Rattle.loss_engine.specs.KeySaid.{sender_said, stream_said};
ghost use Rattle.loss_engine.specs.Sights.{same_key, same_truth};

/// A sender: a control block of GOOSE (IEC 61850-8-1), its real frames or its simulated ones.
#[derive(Clone, Copy)]
pub struct SenderKey<'a> {
    /// APPID.
    pub app_id: u16,
    /// gocbRef, the name of the control block.
    pub reference: &'a [u8],
    /// simulation: the frames come from a test set.
    pub simulation: bool,
}

/// A stream of Sampled Values (IEC 61850-9-2).
#[derive(Clone, Copy)]
pub struct StreamKey<'a> {
    /// APPID.
    pub app_id: u16,
    /// The address that its frames are sent from.
    pub source: [u8; 6],
    /// svID, the name of the stream.
    pub id: &'a [u8],
}

/// A sender or a stream, its names where they stand.
#[derive(Clone, Copy)]
pub enum Key<'a> {
    /// A sender.
    Sender(SenderKey<'a>),
    /// A stream.
    Stream(StreamKey<'a>),
}

// Whether both are true, or none is.
#[inline(always)]
fn is_same_truth(own: bool, other: bool) -> bool
    ensures { result ≡ same_truth own other }
{
    own == other
}

impl SenderKey<'_> {
    /// Whether both are one.
    #[inline(always)]
    pub fn is_same(self, other: SenderKey<'_>) -> bool
        ensures { result ≡ same_key (sender_said self.entry) (sender_said other.entry) }
    {
        self.app_id == other.app_id
            && self.reference == other.reference
            && is_same_truth(self.simulation, other.simulation)
    }
}

impl StreamKey<'_> {
    /// Whether both are one.
    #[inline(always)]
    pub fn is_same(self, other: StreamKey<'_>) -> bool
        ensures { result ≡ same_key (stream_said self.entry) (stream_said other.entry) }
    {
        self.app_id == other.app_id && self.source == other.source && self.id == other.id
    }
}
