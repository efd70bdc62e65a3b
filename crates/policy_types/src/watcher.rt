ghost use Rattle.std.specs.Prelude.{◌≡◌, ℕ, ◌<◌, ◌≤◌, ◌+◌, ◌++◌, ◌∷◌, ◌↔◌, [], List, Bool, length, IsTrue, OnOk, OnErr};
ghost use Rattle.policy_types.specs.declared.command.Command.{Command as ACommand};
ghost use Rattle.policy_types.specs.Limits.{most_commands};
ghost use Rattle.policy_types.specs.Valid.{IsValid};

use crate::command::Command;

/// A watcher has no capacity for one more command.
#[derive(Clone, Copy, PartialEq, Eq, Debug)]
pub struct NotReady;

/// What a watcher reports at the end.
#[derive(Clone, Copy, PartialEq, Eq, Debug)]
pub struct Report {
    /// How many commands were noted.
    pub seen: u32,
    /// A number of the watcher's own.
    pub tally: u64,
}

/// Whether a watcher goes on or has seen enough.
#[derive(Clone, Copy, PartialEq, Eq, Debug)]
pub enum Attention {
    More,
    Done,
}

/// A watcher notes each accepted command, and reports on them at the end.
pub trait Watcher: Drop {
    /// The commands noted so far, in order.
    ghost noted: { Self → List ACommand };

    /// The position of the last command that was noted. Nothing is said of it while none was.
    ghost last: { Self → ℕ };

    /// How many further commands can be noted without a request for memory.
    ghost spare: { Self → ℕ };

    /// The lists after which the watcher is done.
    ghost stops: { Self → List ACommand → Bool };

    /// The watcher's own number for a list.
    ghost number: { Self → List ACommand → ℕ };

    /// Makes the watcher ready for one command. It fails only if the watcher had no capacity for one; then nothing
    /// changes.
    fn ready(&mut self) -> Result<(), NotReady>
        ensures noted { noted self.new ≡ noted self.old }
        ensures last { last self.new ≡ last self.old }
        ensures ok { OnOk result (1 ≤ spare self.new) }
        ensures err { OnErr result (spare self.new ≡ spare self.old) }
        ensures full { OnErr result (spare self.old ≡ 0) }
        ensures stops { (h : List ACommand) → stops self.new h ≡ stops self.old h }
        ensures number { (h : List ACommand) → number self.new h ≡ number self.old h };

    /// Notes the command at this position among all that were accepted, counted from 1: the position directly after
    /// that of the last command that was noted. It asks for no memory.
    fn note(&mut self, position: u32, command: &Command) -> Attention
        requires first { 1 ≤ position }
        requires next { 1 ≤ length (noted self.old) → position ≡ last self.old + 1 }
        requires room { 1 ≤ spare self.old }
        requires valid { IsValid command.now }
        requires few { length (noted self.old) < most_commands }
        ensures noted { noted self.new ≡ noted self.old ++ command.now ∷ [] }
        ensures last { last self.new ≡ position }
        ensures done { (result ≡ Attention.Done) ↔ IsTrue (stops self.old (noted self.new)) }
        ensures stops { (h : List ACommand) → stops self.new h ≡ stops self.old h }
        ensures number { (h : List ACommand) → number self.new h ≡ number self.old h };

    /// The length of the watcher's list, and its own number for it.
    fn report(&self) -> Report
        ensures seen { result.seen ≡ length (noted self.now) }
        ensures tally { result.tally ≡ number self.now (noted self.now) };
}
