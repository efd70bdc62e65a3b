// Laws of the upgrade and of paid-up policies, for callers.
ghost use Rattle.std.specs.Prelude.{◌≡◌, ◌↔◌, true, ℕ, ◌+◌, ◌≤◌, ℤ, [], ◌∷◌, ◌++◌, List, Some, length};
ghost use Rattle.policy_machine.specs.Names.{AllByRecursion, Command, PaidUp, Upgrade, Policy, Upgraded, IsPaidUp, status_eq};
ghost use Rattle.policy_machine.specs.Accounts.{ledger_of};
ghost use Rattle.policy_machine.specs.Before.{IsOldCommand, WereAccepted, old_book, old_ledger, old_policy_of, old_refusal};
ghost use Rattle.policy_machine.specs.Book.{IsAccepted, book, judge, policy_of, upgrade_of};
ghost use Rattle.policy_machine.specs.PaidUp.{StaysPaidUp};

/// A journal without an upgrade means what it meant under the earlier rules: the same commands are accepted, each
/// other one is refused for the same reason, and the policies, the book and the balances are the same.
pub fn old_journals_mean_the_same()
    ensures accepted { (commands : List Command) → AllByRecursion IsOldCommand commands
        → IsAccepted commands ↔ WereAccepted commands }
    ensures refused { (commands : List Command) (command : Command) → AllByRecursion IsOldCommand commands
        → IsOldCommand command → judge commands command ≡ old_refusal commands command }
    ensures policies { (commands : List Command) (id : ℕ) → AllByRecursion IsOldCommand commands
        → policy_of commands id ≡ old_policy_of commands id }
    ensures book { (commands : List Command) → AllByRecursion IsOldCommand commands
        → book commands ≡ old_book commands }
    ensures balances { (commands : List Command) → AllByRecursion IsOldCommand commands
        → ledger_of commands ≡ old_ledger commands }
{}

/// An upgrade leaves policies and accounts as they are.
pub fn upgrades_change_nothing()
    ensures policies { (commands : List Command) (id : ℕ) → policy_of (commands ++ Upgrade ∷ []) id ≡ policy_of commands id }
    ensures book { (commands : List Command) → book (commands ++ Upgrade ∷ []) ≡ book commands }
    ensures balances { (commands : List Command) → ledger_of (commands ++ Upgrade ∷ []) ≡ ledger_of commands }
{}

/// A journal is upgraded only once: after an upgrade a further one is refused, with the place of the first. Among
/// accepted commands the upgrade comes before all commands that make a policy paid up.
pub fn upgrades_come_once()
    ensures place { (front rest : List Command) → upgrade_of front ≡ 0
        → upgrade_of (front ++ Upgrade ∷ rest) ≡ length front + 1 }
    ensures again { (front rest : List Command) → judge (front ++ Upgrade ∷ rest) Upgrade
        ≡ Some (Upgraded (upgrade_of (front ++ Upgrade ∷ rest))) }
    ensures once { (front rest : List Command) → IsAccepted (front ++ Upgrade ∷ rest) → upgrade_of front ≡ 0 }
    ensures before { (front rest : List Command) (id amount : ℕ) (day : ℤ)
        → IsAccepted (front ++ PaidUp id day amount ∷ rest) → 1 ≤ upgrade_of front }
{}

/// The amount that a policy covers never rises, and a paid-up policy's amount stays as it is: the policy takes no
/// premium and is never in force again, whatever commands follow.
pub fn cover_never_rises()
    ensures amount { (before rest : List Command) (id : ℕ) (p q : Policy) → policy_of before id ≡ Some p
        → policy_of (before ++ rest) id ≡ Some q → q.amount ≤ p.amount }
    ensures paid_up { (before rest : List Command) (id : ℕ) (p q : Policy) → policy_of before id ≡ Some p
        → policy_of (before ++ rest) id ≡ Some q → status_eq.it p.status IsPaidUp ≡ true → StaysPaidUp p q }
{}
