// Laws about the definitions: each function has an empty body, and its clauses are the laws.
ghost use Rattle.addr_history.specs.Laws.{LoadsAreNumbered, StaysWithinLimit, PrefixesAreLegal, EmptyIsLegal, AnswersAreLegal, ClosedForLoads, SpeakOfBundles, CountsUnreleased, SumsReferences, OneWhereNotAcquired, ReadsOnce, ReadsAllOnce};
ghost use Rattle.addr_history.specs.Worked.{Located, Shared, Fetched, Retried, Filled, Acquired};

/// What holds of every legal history.
pub fn legal_histories()
    ensures numbered { LoadsAreNumbered }
    ensures within_limit { StaysWithinLimit }
    ensures prefixes { PrefixesAreLegal }
    ensures empty { EmptyIsLegal }
    ensures answers { AnswersAreLegal }
    ensures closed { ClosedForLoads }
    ensures bundles { SpeakOfBundles }
    ensures counts { CountsUnreleased }
    ensures references { SumsReferences }
{}

/// An operation that was never acquired has one reference from its Load to its first Release.
pub fn without_acquires()
    ensures { OneWhereNotAcquired }
{}

/// A reading has one answer, whatever the images hold.
pub fn one_answer()
    ensures reads { ReadsOnce }
    ensures reads_all { ReadsAllOnce }
{}

/// The worked examples of `specs/Worked.antt`, computed from the definitions themselves.
pub fn worked_examples()
    ensures located { Located }
    ensures shared { Shared }
    ensures fetched { Fetched }
    ensures retried { Retried }
    ensures filled { Filled }
    ensures acquired { Acquired }
{}
