// Laws of the rules, for callers.
ghost use Rattle.std.specs.Prelude.{◌≡◌, ℕ, List, Ok, Some, Option, IfSome};
ghost use Rattle.policy_machine.specs.Names.{AllByRecursion, Command, Policy, IsValid, day_of};
ghost use Rattle.policy_machine.specs.Rules.{IsSound, next};
ghost use Rattle.policy_machine.specs.Book.{IsSameContract, book, policy_of};

/// An accepted command keeps the policy's number, plan, age, years and day of issue, and its day becomes the
/// policy's last.
pub fn contracts_are_kept()
    ensures same { (before after : Policy) (command : Command) → next (Some before) command ≡ Ok after
        → IsSameContract before after }
    ensures last { (before : Option Policy) (after : Policy) (command : Command) → next before command ≡ Ok after
        → day_of command ≡ Some after.last }
{}

/// Valid commands leave sound policies, each under its own number.
pub fn books_are_sound()
    ensures sound { (commands : List Command) (id : ℕ) → AllByRecursion IsValid commands
        → IfSome (policy_of commands id) IsSound }
    ensures own { (commands : List Command) (id : ℕ) → IfSome (policy_of commands id) (λ p. p.id ≡ id) }
    ensures book { (commands : List Command) → AllByRecursion IsValid commands
        → AllByRecursion IsSound (book commands) }
{}
