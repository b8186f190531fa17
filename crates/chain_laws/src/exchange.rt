//! Laws of exchanges.

ghost use Rattle.chain_laws.specs.Exchanges.{ExchangeAgrees, ExchangeInPairs, ExchangeExchanges, ExchangeSplitsACycle, ExchangeMergesCycles, MergedCycleHasBoth};
ghost use Rattle.chain_laws.specs.Exchanges.{ExchangeIsDetermined, ExchangeIsDeterminedByPairs, ExchangeTwiceRestores, ExchangeWithItselfKeeps, ExchangeIsMutual};

/// Exchanges keep links well linked.
pub fn exchange_agrees()
    ensures { ExchangeAgrees }
{}

/// Two links swap their next links.
pub fn exchange_in_pairs()
    ensures { ExchangeInPairs }
{}

/// Two links trade what follows them.
pub fn exchange_exchanges()
    ensures { ExchangeExchanges }
{}

/// An exchange splits or merges cyclic chains.
pub fn exchange_of_cycles()
    ensures { ExchangeSplitsACycle × ExchangeMergesCycles }
{}

/// A merged chain has exactly the links of both.
pub fn merged_cycle_has_both()
    ensures { MergedCycleHasBoth }
{}

/// `Exchanges`, or well-linked `ExchangesPairs`, determines an exchange.
pub fn exchange_is_determined()
    ensures { ExchangeIsDetermined × ExchangeIsDeterminedByPairs }
{}

/// An exchange is symmetric and undoes itself.
pub fn exchange_restores()
    ensures { ExchangeTwiceRestores × ExchangeWithItselfKeeps × ExchangeIsMutual }
{}
