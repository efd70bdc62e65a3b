use crate::stands::Stands;

/// One call on the value, made in a turn of its caller.
pub trait Turn<T: Stands> {
    ghost use Rattle.std.specs.Prelude.{◌≡◌, ℕ, List, [], ◌∷◌, ◌++◌};
    ghost use Rattle.policy_types.specs.declared.entry.Entry.{Entry};
    ghost use Rattle.turn_lock.specs.Passes.{IsLent};

    type Answer;

    // What the call needs of its caller: of its number, of what it has seen and of what it made.
    ghost needs: { Self → ℕ → List Entry → List Entry → Type 0 };

    // The entry that the call adds, by its caller and its answer.
    ghost entry: { Self → ℕ → Self.Answer → Entry };

    // What the answer says, given what the value was opened on and its history before the call.
    ghost tells: { Self → T.Opening → List Entry → Self.Answer → Type 0 };

    /// Runs the call on the value, and returns its answer.
    fn run(self, value: &mut T, caller: u64) -> Self::Answer
        requires lent { (history : List Entry) × (seen : List Entry) × (made : List Entry) × IsLent T.stands (needs self) value.old caller history seen made }
        ensures stood { (history seen made : List Entry) → IsLent T.stands (needs self) value.old caller history seen made → T.stands value.new (history ++ entry self caller result ∷ []) }
        ensures opening { T.opening value.new ≡ T.opening value.old }
        ensures tells { (history seen made : List Entry) → IsLent T.stands (needs self) value.old caller history seen made → tells self (T.opening value.old) history result };

    /// Whether the call is over so soon that others lose little by waiting for it. No contract depends on the answer.
    fn is_brief(&self) -> bool {
        false
    }

    /// Whether the call takes much less time than waking a thread, so that more calls of this kind may pass a caller
    /// that waits. No contract depends on the answer.
    fn is_light(&self) -> bool {
        false
    }

    // The entry is the caller's.
    ghost by_caller: { (call : Self) (caller : ℕ) (answer : Self.Answer) → (entry call caller answer).caller ≡ caller };
}

/// What a turn gives back.
#[derive(Drop)]
pub struct Turned<A> {
    /// The place of the turn's entry in the history, from 0.
    pub turn: u64,
    pub answer: A,
}
