// The loading machine: what counts count, and what is in memory.
ghost use Rattle.addr_core.specs.Machine.{HasImages, IdleHaveNone, ReadyHave};
ghost use Rattle.addr_history.specs.Laws.{AnswersAreLegal, ClosedForLoads, CountsUnreleased, EmptyIsLegal, PrefixesAreLegal, ReadsAllOnce, ReadsOnce, StaysWithinLimit, SumsReferences};
ghost use Rattle.addr_history.specs.Legal.{Legal};

use addr_base::Image;
use addr_core::Core;
use addr_history::{legal_histories, one_answer};

/// In a legal history the count of a bundle is the number of unreleased operations that depend on it, and an operation is released
/// when its references are.
pub fn counts_are_of_unreleased_operations()
    ensures counts { CountsUnreleased }
    ensures references { SumsReferences }
{
    legal_histories();
}

/// The empty history is legal; one more event that is the answer there keeps it legal; each prefix is; what is used and owed stays
/// within the limit; and after Close nothing is loaded.
pub fn replies_keep_histories_legal()
    ensures empty { EmptyIsLegal }
    ensures answers { AnswersAreLegal }
    ensures prefixes { PrefixesAreLegal }
    ensures limit { StaysWithinLimit }
    ensures closed { ClosedForLoads }
{
    legal_histories();
}

/// The journal of a machine is a legal history, at every moment.
pub fn journals_are_legal_histories<I: Image + Drop>(core: &Core<I>)
    ensures { Legal core.now.rows core.now.limit core.now.history }
{
    let _journal = core.journal();
}

/// A bundle that no operation needs has left memory.
pub fn idle_bundles_have_no_image<I: Image + Drop>(core: &Core<I>)
    ensures { IdleHaveNone core.now }
{
    let _journal = core.journal();
}

/// A bundle that a ready operation needs is in memory, and exactly the resident bundles are.
pub fn ready_operations_have_their_images<I: Image + Drop>(core: &Core<I>)
    ensures ready { ReadyHave core.now }
    ensures resident { HasImages core.now }
{
    let _journal = core.journal();
}

/// What is read under an operation has one answer.
pub fn readings_have_one_answer()
    ensures one { ReadsOnce }
    ensures all { ReadsAllOnce }
{
    one_answer();
}
