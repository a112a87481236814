//! The forms in which is written.

/// What the number of an event counts, and so under which name an object has it.
#[derive(Clone, Copy, Debug, PartialEq, Eq)]
pub enum Counted {
    /// Lines of a list.
    Line,
    /// Packets of a capture.
    Packet,
}

/// In which form is written.
#[derive(Clone, Copy, Debug, PartialEq, Eq)]
pub enum Form {
    /// Lines of text.
    Text,
    /// An object of JSON for each of these lines.
    Object(Counted),
}

/// Where what is told of an event stands: in which form, and under which number and moment of the event.
#[derive(Clone, Copy, Debug, PartialEq, Eq)]
pub struct Heading {
    /// The form.
    pub form: Form,
    /// The number of the event's line or packet.
    pub number: u64,
    /// The moment of the event, in microseconds.
    pub moment: u64,
}
