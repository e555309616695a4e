// A law of chains, for proofs over fetchers.
ghost use Rattle.addr_fetch.specs.Chain.{ChainsJoin};

use crate::fetch::Fetch;

/// Chains join, of whatever fetcher; it does nothing.
pub fn chains_join<F: Fetch>()
    ensures { ChainsJoin F.gives }
{}
