//! What a worker has finished, as a number that no worker can make up.

ghost use Rattle.std.specs.Prelude.{◌≡◌, ◌<◌, ◌≤◌, [], replicate, sum, vec_capacity, vec_len};

use std::marker::Model;
use std::sync::ledger;
use std::sync::ledger::Ledger;

/// How many spans one worker has finished. It is one part of the pool's ledger, it takes no memory, and no
/// call but `finish` raises it. Contracts see it as that number.
#[derive(Drop)]
pub struct Share<L: Ledger> {
    pub(crate) token: ledger::Share<L>,
}

impl<L: Ledger> Model for Share<L> {
    ghost use Rattle.std.specs.Prelude.{◌≡◌, ℕ};

    ghost Value = { ℕ };

    ghost view = { λ s. s.token.amount };

    ghost invariant = { λ s. s.token.parts ≡ 1 };
}

impl<L: Ledger> Share<L> {
    /// Its part of the ledger.
    pub(crate) fn into_token(self) -> ledger::Share<L>
        ensures parts { result.parts ≡ 1 }
        ensures amount { result.amount ≡ self }
    {
        self.token
    }
}

/// A share with one part of the ledger for each worker.
pub(crate) fn deal<L: Ledger>(shares: &mut Vec<Share<L>>, rest: ledger::Share<L>, workers: usize)
    requires none { (shares.old.items ≡ []) × (vec_len shares.old ≡ 0) }
    requires room { workers ≤ vec_capacity shares.old }
    requires parts { rest.parts ≡ workers }
    requires amount { rest.amount ≡ 0 }
    ensures shares { shares.new.items ≡ replicate workers 0 }
    ensures share_count { vec_len shares.new ≡ workers }
{
    let mut rest = rest;
    for _worker in 0..workers {
        let token = rest.split_off(1, 0);
        shares.push_reserved(Share { token });
    }
}

/// All parts and counts of the shares in one.
pub(crate) fn gathered<L: Ledger>(shares: Vec<Share<L>>) -> ledger::Share<L>
    requires { 0 < vec_len shares }
    ensures parts { result.parts ≡ vec_len shares }
    ensures amount { result.amount ≡ sum shares.items }
{
    let mut shares = shares;
    let mut all = shares.remove(0).into_token();
    while !shares.is_empty() {
        all.merge(shares.remove(0).into_token());
    }
    all
}
