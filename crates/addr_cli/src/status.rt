// Exit statuses. Each has one meaning over all commands.

/// The exit status of a command.
#[derive(Clone, Copy, Debug, PartialEq, Eq)]
pub struct Status(pub u8);

impl Status {
    pub const DONE: Status = Status(0);

    /// The sink failed; it stands in place of any other status.
    pub const SINK_FAULT: Status = Status(13);

    /// The listener failed.
    pub const NET_FAULT: Status = Status(14);
}
