// The lowest entry that breaks a rule.
ghost use Rattle.std.specs.Prelude.{◌≡◌, ℕ, ◌+◌, ◌≤◌, ◌<◌};
ghost use Rattle.pool.specs.Answers.{verdict, number_of};
ghost use Rattle.pool.specs.ForProofs.Searches.{Lowest};

use crate::{Refusal, Refused};

// Of n entries the lowest that does not pass breaks the rule; the place of the first of them is `first`.
pub(crate) fn search<F: Fn(usize) -> bool>(
    rule: Refusal,
    n: usize,
    first: usize,
    passes: F,
) -> Result<(), Refused>
    requires can { (k : ℕ) → k < n → F.pre passes k }
    requires few { first + n ≤ 257 }
    ensures { Lowest (F.post passes) n (number_of rule) first (verdict result) }
{
    let breaks = |k: &usize| -> bool
        requires { F.pre passes k.now }
    { !passes(*k) };
    match (0..n).find(breaks) {
        Some(k) => Err(rule.at(first + k)),
        None => Ok(()),
    }
}
