// The answer of a fetch, with its count of faults.
ghost use Rattle.std.specs.Prelude.{◌≡◌};
ghost use Rattle.addr_http.specs.Fetching.{AnsweredBy, IfFault, sum_of};

use crate::outcome::Outcome;
use addr_base::Failed;
use addr_fetch::Poured;

/// The answer by how a conversation ended; the own count rises where what came can't be read.
pub fn answer_of(outcome: Result<Outcome, Failed>, connector: u64, own: &mut u64) -> Poured
    ensures told { AnsweredBy outcome result own.old own.new }
    ensures fault { IfFault result (λ n. n ≡ sum_of connector own.new) }
{
    match outcome {
        Ok(Outcome::Whole(n)) => Poured::Whole(n),
        Ok(Outcome::Missing) => Poured::Missing,
        Ok(Outcome::Refused(code)) => Poured::Refused(code),
        Ok(Outcome::TooLong(n)) => Poured::TooLong(n),
        Ok(Outcome::NoMemory) => Poured::NoMemory,
        Ok(Outcome::Unreadable) => {
            *own = own.saturating_add(1);
            Poured::Fault(sum(connector, *own))
        }
        Err(Failed) => Poured::Fault(sum(connector, *own)),
    }
}

fn sum(a: u64, b: u64) -> u64
    ensures { result ≡ sum_of a b }
{
    a.saturating_add(b)
}
