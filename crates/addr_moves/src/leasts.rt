// The least of some GUIDs.
ghost use Rattle.std.specs.Prelude.{◌≡◌, Some};
ghost use Rattle.addr_resolve.specs.Lost.{lesser};
ghost use Rattle.addr_moves.specs.within.Leasts.{IsLeastIn};

use addr_base::Guid;
use std::cmp::Ordering;

fn lesser(best: Option<Guid>, guid: Guid) -> Option<Guid>
    ensures { result ≡ lesser best (Some guid) }
{
    match best {
        None => Some(guid),
        Some(least) => match guid.cmp(&least) {
            Ordering::Less => Some(guid),
            _ => Some(least),
        },
    }
}

/// The least GUID, if there is any.
pub(crate) fn least_of(guids: &[Guid]) -> Option<Guid>
    ensures { IsLeastIn guids.now result }
{
    let mut least = None;
    for guid in guids {
        least = lesser(least, *guid);
    }
    least
}
