ghost use Rattle.std.specs.Prelude.{◌≡◌, ℕ, ◌+◌, ◌<◌, List, [], ◌∷◌, ◌++◌, length, OnOk, OnErr};
ghost use Rattle.watcher_set.specs.Names.{ACommand, most_commands, IsValid};
ghost use Rattle.watcher_set.specs.Noted.{Auditor, reports_of};

use crate::evidence::Lack;
use crate::reports::Reports;
use policy_types::Command;

/// A set of watchers, which are notified of each accepted command.
pub trait Watching: Drop {
    /// The watchers as they were handed in, in their order.
    ghost handed: { Self → List Auditor };

    /// Since the set was handed in, it was notified of these commands, in this order, each at its position: the
    /// positions directly after `before` others.
    ghost told: { Self → ℕ → List ACommand → Type 0 };

    /// Each watcher that is left has capacity for one more command.
    ghost has_room: { Self → Type 0 };

    /// One watcher that is left has no capacity for one more command.
    ghost is_full: { Self → Type 0 };

    /// Makes the watchers ready for one command. It fails only if one of them has no capacity for it; then none was
    /// notified.
    fn ready(&mut self) -> Result<(), Lack>
        ensures handed { handed self.new ≡ handed self.old }
        ensures told { (before : ℕ) (commands : List ACommand) → told self.old before commands → told self.new before commands }
        ensures ok { OnOk result (has_room self.new) }
        ensures full { OnErr result (is_full self.old) };

    /// Notifies each watcher that is left of the command at this position among all that were accepted, counted from
    /// 1: the position directly after the last of which the set was notified. It asks for no memory.
    fn note(&mut self, position: u32, command: &Command)
        requires room { has_room self.old }
        requires valid { IsValid command.now }
        requires next { (before : ℕ) × (commands : List ACommand) × told self.old before commands
            × (length commands < most_commands) × (position ≡ before + length commands + 1) }
        ensures handed { handed self.new ≡ handed self.old }
        ensures told { (before : ℕ) (commands : List ACommand) → told self.old before commands
            → position ≡ before + length commands + 1 → told self.new before (commands ++ command.now ∷ []) };

    /// The reports, in the order in which the watchers were handed in.
    fn finish(self) -> Reports
        ensures { (before : ℕ) (commands : List ACommand) → told self before commands
            → result ≡ reports_of (handed self) commands };
}
