// Which of an operation's rows may be read.
ghost use Rattle.std.specs.Prelude.{◌≡◌};
ghost use Rattle.addr_history.specs.Reading.{ready_row};

use addr_base::RowNo;
use addr_history::{NoHandle, OpStatus, ReadErr};

/// An operation's row where it may be read: it has a status, the row is there, and the status is Ready; else the first refusal.
pub fn ready_row(status: Result<OpStatus, NoHandle>, row: Option<RowNo>) -> Result<RowNo, ReadErr>
    ensures { result ≡ ready_row status row }
{
    match status {
        Err(_) => Err(ReadErr::NoHandle),
        Ok(status) => match row {
            None => Err(ReadErr::NoAsset),
            Some(row) => match status {
                OpStatus::Pending => Err(ReadErr::Pending),
                OpStatus::Ready => Ok(row),
                OpStatus::Failed(b, cause) => Err(ReadErr::Failed(b, cause)),
            },
        },
    }
}
