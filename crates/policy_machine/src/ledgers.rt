// Laws of the balances that a list of commands leaves, for callers.
ghost use Rattle.std.specs.Prelude.{◌≡◌, ◌*◌, [], ◌∷◌, ◌++◌, pos, List, Ok, length};
ghost use Rattle.policy_machine.specs.Names.{AllByRecursion, Command, Policy, booking_of, added, sum_of, AreWithin, IsValid, id_of};
ghost use Rattle.policy_machine.specs.Accounts.{ledger_of};
ghost use Rattle.policy_machine.specs.Book.{policy_of};
ghost use Rattle.policy_machine.specs.Rules.{next};

/// One more accepted command moves each balance by what it books.
pub fn ledgers_grow_by_a_booking()
    ensures { (commands : List Command) (command : Command) (after : Policy)
        → next (policy_of commands (id_of command)) command ≡ Ok after
        → ledger_of (commands ++ command ∷ []) ≡ added (ledger_of commands) (booking_of command after) }
{}

/// The four balances add up to 0.
pub fn ledgers_add_up()
    ensures { (commands : List Command) → sum_of (ledger_of commands) ≡ pos 0 }
{}

/// No balance is more than 4 * 10^10 cents for each command, on either side.
pub fn ledgers_stay_within()
    ensures { (commands : List Command) → AllByRecursion IsValid commands
        → AreWithin (40000000000 * length commands) (ledger_of commands) }
{}
