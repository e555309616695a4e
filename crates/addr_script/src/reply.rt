// The replies to commands, and how they are printed: one line each, without its end.
ghost use Rattle.std.specs.Prelude.{◌≡◌};
ghost use Rattle.addr_script.specs.Causes.{layer_word};
ghost use Rattle.addr_script.specs.Replies.{settled_word, state_word};

use addr_base::{BundleNo, Cause, Layer, OpId, Text};
use addr_history::{BundleState, Next, OpStatus, Settled};
use std::fmt;

/// What a command is answered.
#[derive(Drop)]
pub enum Reply {
    /// A load opened this operation.
    Opened(OpId),
    /// A load's keys lead to no row: the token of the first key without one, where there is such a key.
    NoLocation(Option<Text>),
    /// A load or an acquire would have passed the journal's limit; the numbers are of events.
    JournalFull {
        used: u32,
        reserved: u32,
        needed: u64,
    },
    /// A load, or another `close`, came after the machine was closed.
    Closed,
    Acquired,
    Released,
    NoHandle,
    Status(OpStatus),
    /// How many references an operation has.
    References(u32),
    Next(Next),
    Settled(Settled),
    NotTaken,
    /// A failure was noted.
    Noted,
    /// The machine is closed from now on.
    NowClosed,
    /// A bundle's count, and where the bundle is.
    Counted(u32, BundleState),
    NoBundle,
    /// How many bytes an asset has, and how they are shown.
    Bytes(u64, Text),
    /// How many assets an unfolding has, and how they are shown.
    All(u64, Text),
    NoAsset,
    /// The bundle that doesn't hold what is read.
    AbsentFrom(BundleNo),
}

impl fmt::Display for Reply {
    ghost use Rattle.std.specs.Prelude.{Some};
    ghost use Rattle.addr_script.specs.Replies.{reply_text};

    ghost output = { λ r. Some (reply_text r) };

    #[tactic(auto, unfolding(crate::specs::Replies::reply_text))]
    fn fmt<W: fmt::Write>(&self, f: &mut fmt::Formatter<W>) -> fmt::Result {
        match self {
            Reply::Opened(op) => {
                let number = op.0;
                write!(f, "op {number}")
            }
            Reply::NoLocation(Some(token)) => {
                let key = token.as_str();
                write!(f, "no-location {key}")
            }
            Reply::NoLocation(None) => f.write_str("no-location %-"),
            Reply::JournalFull {
                used,
                reserved,
                needed,
            } => write!(f, "journal-full {used} {reserved} {needed}"),
            Reply::Closed => f.write_str("closed"),
            Reply::Acquired => f.write_str("acquired"),
            Reply::Released => f.write_str("released"),
            Reply::NoHandle => f.write_str("no-handle"),
            Reply::Status(status) => write!(f, "{}", StatusText(*status)),
            Reply::References(references) => write!(f, "refs {references}"),
            Reply::Next(next) => write!(f, "{}", NextText(*next)),
            Reply::Settled(settled) => f.write_str(settled_word(*settled)),
            Reply::NotTaken => f.write_str("not-taken"),
            Reply::Noted => f.write_str("failed"),
            Reply::NowClosed => f.write_str("close"),
            Reply::Counted(count, state) => {
                let place = state_word(*state);
                write!(f, "count {count} {place}")
            }
            Reply::NoBundle => f.write_str("no-bundle"),
            Reply::Bytes(length, content) => {
                let shown = content.as_str();
                write!(f, "bytes {length} {shown}")
            }
            Reply::All(count, items) => {
                let shown = items.as_str();
                write!(f, "all {count}{shown}")
            }
            Reply::NoAsset => f.write_str("no-asset"),
            Reply::AbsentFrom(b) => {
                let number = b.0;
                write!(f, "absent {number}")
            }
        }
    }
}

fn state_word(state: BundleState) -> &'static str
    ensures { result.now ≡ state_word state }
{
    match state {
        BundleState::Resident => "resident",
        BundleState::Fetching => "fetching",
        BundleState::Queued => "queued",
        BundleState::Absent => "absent",
    }
}

fn settled_word(settled: Settled) -> &'static str
    ensures { result.now ≡ settled_word settled }
{
    match settled {
        Settled::Kept => "kept",
        Settled::Dropped => "dropped",
    }
}

#[derive(Clone, Copy)]
struct NextText(Next);

impl fmt::Display for NextText {
    ghost use Rattle.std.specs.Prelude.{Some};
    ghost use Rattle.addr_script.specs.Replies.{next_text};

    ghost output = { λ t. Some (next_text t.0) };

    fn fmt<W: fmt::Write>(&self, f: &mut fmt::Formatter<W>) -> fmt::Result {
        match self.0 {
            Next::Bundle(b) => {
                let number = b.0;
                write!(f, "bundle {number}")
            }
            Next::Idle => f.write_str("idle"),
            Next::End => f.write_str("end"),
        }
    }
}

#[derive(Clone, Copy)]
struct StatusText(OpStatus);

impl fmt::Display for StatusText {
    ghost use Rattle.std.specs.Prelude.{Some};
    ghost use Rattle.addr_script.specs.Replies.{status_text};

    ghost output = { λ t. Some (status_text t.0) };

    fn fmt<W: fmt::Write>(&self, f: &mut fmt::Formatter<W>) -> fmt::Result {
        match self.0 {
            OpStatus::Pending => f.write_str("pending"),
            OpStatus::Ready => f.write_str("ready"),
            OpStatus::Failed(b, cause) => {
                let number = b.0;
                let why = CauseText(cause);
                write!(f, "failed {number} {why}")
            }
        }
    }
}

/// A cause as a line spells it.
#[derive(Clone, Copy)]
pub struct CauseText(pub Cause);

impl fmt::Display for CauseText {
    ghost use Rattle.std.specs.Prelude.{Some};
    ghost use Rattle.addr_script.specs.Causes.{cause_text};

    ghost output = { λ t. Some (cause_text t.0) };

    fn fmt<W: fmt::Write>(&self, f: &mut fmt::Formatter<W>) -> fmt::Result {
        match self.0 {
            Cause::Fault(n) => write!(f, "fault:{n}"),
            Cause::Missing => f.write_str("missing"),
            Cause::Refused(status) => write!(f, "refused:{status}"),
            Cause::TooLong(n) => write!(f, "toolong:{n}"),
            Cause::BadSize { want, got } => write!(f, "size:{want}:{got}"),
            Cause::BadDigest { want, got } => write!(f, "digest:{want}:{got}"),
            Cause::BadImage { layer, number } => {
                let reader = layer_word(layer);
                write!(f, "image:{reader}:{number}")
            }
            Cause::NoMemory => f.write_str("memory"),
        }
    }
}

fn layer_word(layer: Layer) -> &'static str
    ensures { result.now ≡ layer_word layer }
{
    match layer {
        Layer::UnityFs => "unityfs",
        Layer::Cab => "cab",
    }
}
