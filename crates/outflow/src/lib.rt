// The amount that each action's rule looks at.
#![tactic(auto)]

ghost use Rattle.std.specs.Prelude.{◌≡◌, MatchOption, ⊤, map, position};
ghost use Rattle.key.specs.Key.{same_key};
ghost use Rattle.keys.specs.Views.{keys_in};
ghost use Rattle.action.specs.Fields.{key_of};
ghost use Rattle.action.specs.Views.{action_at};
ghost use Rattle.row.specs.Views.{actions_in};
ghost use Rattle.account.specs.Views.{table_records};
ghost use Rattle.balance.specs.Views.{sums_of};
ghost use Rattle.outflow.specs.Views.{sum_for};
ghost use Rattle.outflow.specs.Outflow.{decrease_of, sol_amount, amount_from};

use account::Table;
use action::fields::{is_token, key_of};
use action::{ActionView, SOL_MAX_PER_TX};
use balance::{Sums, balance, balances};
use keys::Keys;
use number::floored_difference;
use region::MAX_ACTIONS;
use std::array;

// What a call moved: the account tables before and after it, the vault whose balances are looked at, how
// far its lamports went down, and the gross outflow.
#[derive(Clone, Copy)]
pub struct Outflow<'a> {
    pub before: Table<'a>,
    pub after: Table<'a>,
    pub vault: &'a [u8],
    pub sol: u64,
    pub gross: u64,
}

// What the rule of an action on SOL looks at.
fn sol_amount(kind: u8, sol: u64, gross: u64) -> u64
    ensures { result ≡ sol_amount sol gross kind }
{
    if kind == SOL_MAX_PER_TX { gross } else { sol }
}

impl Outflow<'_> {
    // How much the vault's balance of a mint went down.
    fn token_decrease(&self, mint: &[u8]) -> u64
        ensures { result ≡ decrease_of self.now.vault.now (table_records self.now.before) (table_records self.now.after) mint.now }
    {
        let had = balance(self.before, self.vault, mint);
        let has = balance(self.after, self.vault, mint);
        floored_difference(had, has)
    }

    // How much the balance of each listed mint went down: each table is walked once, whatever the number
    // of mints and of their limits.
    fn mint_decreases(&self, mints: &Keys) -> Sums
        ensures { result ≡ sums_of (map (decrease_of self.now.vault.now (table_records self.now.before) (table_records self.now.after)) (keys_in mints.now)) }
    {
        let had = balances(self.before, self.vault, mints);
        let has = balances(self.after, self.vault, mints);
        Sums {
            list: array::from_fn(|i| floored_difference(had.list[i], has.list[i])),
        }
    }

    // What the rule of one action looks at, where the decrease of its mint is known if the mint is listed.
    fn amount(&self, region: &[u8], view: ActionView, known: Option<u64>) -> u64
        requires { MatchOption known ⊤ (λ d. d ≡ decrease_of self.now.vault.now (table_records self.now.before) (table_records self.now.after) (key_of (action_at region.now view))) }
        ensures { result ≡ amount_from self.now.vault.now (table_records self.now.before) (table_records self.now.after) self.now.sol self.now.gross (action_at region.now view) }
    {
        if !is_token(view.kind) {
            return sol_amount(view.kind, self.sol, self.gross);
        }
        match known {
            Some(decrease) => decrease,
            None => self.token_decrease(key_of(region, view)),
        }
    }

    // An amount for each action of the region, its mint looked up among the listed ones.
    pub fn amounts(&self, region: &[u8], views: &[ActionView], mints: &Keys) -> Sums
        ensures { result ≡ sums_of (map (amount_from self.now.vault.now (table_records self.now.before) (table_records self.now.after) self.now.sol self.now.gross) (actions_in region.now views.now)) }
    {
        let decreases = self.mint_decreases(mints);
        let mut list = [0u64; MAX_ACTIONS];
        // By index: a proof knows nothing of what an adapter of `iter_mut` lends.
        for i in 0..views.len().min(MAX_ACTIONS) {
            let view = views[i];
            let known = listed(&decreases, mints, key_of(region, view));
            let amount = self.amount(region, view, known);
            list[i] = amount;
        }
        Sums { list }
    }
}

// What a list has for a key, where the key is listed.
fn listed(sums: &Sums, keys: &Keys, key: &[u8]) -> Option<u64>
    ensures { result ≡ sum_for (position (λ k. same_key k key.now) (keys_in keys.now)) sums.now }
{
    sums.list.get(keys.position(key)?).copied()
}
