//! The count of terms, and its limit.
ghost use Rattle.std.specs.Prelude.{◌≡◌, ◌≤◌, ◌<◌, ◌+◌, ◌-◌, ◌^◌, IfErr, OnOk, OnErr};
ghost use Rattle.may_elements.specs.Counted.{charged, over};

use std::marker::Model;
use thiserror::Error;

/// Where counts are cut off.
pub const MOST_COUNT: u64 = 1_000_000_000_000_000;

/// A count that passes its limit. The count is cut off at 10^15.
#[derive(Debug, Drop, Error)]
#[error("{count} terms, where the limit is {limit}")]
pub struct Over {
    pub count: u64,
    pub limit: u64,
}

/// A count of terms that stays within a limit.
#[derive(Clone, Copy)]
pub struct Terms {
    limit: u64,
    used: u64,
}

impl Model for Terms {
    ghost use Rattle.std.specs.Prelude.{◌≤◌, ◌^◌};
    ghost use Rattle.may_elements.specs.Counted.{Count, counted};

    ghost Value = { Count };

    ghost view = { λ t. counted t.limit t.used };

    ghost inverse = { λ c. record { limit = c.limit; used = c.used } };

    ghost invariant = { λ t. (t.limit ≤ 10 ^ 12) × (t.used ≤ t.limit) };
}

impl Terms {
    /// Nothing is used of `limit`.
    pub fn new(limit: u64) -> Terms
        requires { limit ≤ 10 ^ 12 }
        ensures limit { result.limit ≡ limit }
        ensures used { result.used ≡ 0 }
    {
        Terms { limit, used: 0 }
    }

    /// How many are used.
    pub fn used(&self) -> u64
        ensures value { result ≡ self.now.used }
        ensures within { result ≤ self.now.limit }
        ensures low { self.now.limit ≤ 10 ^ 12 }
    {
        self.used
    }

    /// How many are left.
    pub fn left(&self) -> u64
        ensures value { result ≡ self.now.limit - self.now.used }
        ensures within { self.now.used ≤ self.now.limit }
        ensures low { self.now.limit ≤ 10 ^ 12 }
    {
        self.limit - self.used
    }

    /// Uses n more. `Over` exactly where the used ones and these pass the limit; then nothing changes.
    pub fn charge(&mut self, n: u64) -> Result<(), Over>
        ensures room { OnOk result (self.old.used + n ≤ self.old.limit) }
        ensures over { IfErr result (λ o. (self.old.limit < self.old.used + n) × (o ≡ over self.old n)) }
        ensures used { OnOk result (self.new ≡ charged self.old n) }
        ensures same { OnErr result (self.new ≡ self.old) }
        ensures low { self.old.limit ≤ 10 ^ 12 }
    {
        let count = self.used.saturating_add(n);
        if count > self.limit {
            return Err(Over {
                count: count.min(MOST_COUNT),
                limit: self.limit,
            });
        }
        self.used = count;
        Ok(())
    }
}
