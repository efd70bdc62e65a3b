// The policies of a pinned position are read, a batch at a time.
ghost use Rattle.std.specs.Prelude.{◌≡◌, ◌^◌, ◌<◌, ◌++◌, [], ◌∷◌, IfOk, IfSome, IfNone, List};
ghost use Rattle.office_state.specs.Names.{Contains, Entry};
ghost use Rattle.office_state.specs.Pins.{MayRead};
ghost use Rattle.office_state.specs.Standing.{StandsFor};
ghost use Rattle.office_state.specs.States.{disk_of, opened_of, outlet_of, pins_of, turns_of};
ghost use Rattle.office_state.specs.Turning.{read_turn};
ghost use Rattle.office_state.specs.declared.held.Held.{Held as AHeld};

use crate::filling::POLICIES_PER_READ;
use crate::held::Held;
use crate::state::OfficeState;
use memory_requests::with_room;
use outside_io::Disk;
use policy_types::{NoMemory, Policy};
use std::alloc::Global;
use std::marker::Model;
use watcher_set::Watching;

/// Policies in order of issue, with room for 256. Contracts see it as their list.
#[derive(Drop)]
pub struct PolicyBatch {
    policies: Vec<Policy>,
}

impl Model for PolicyBatch {
    ghost use Rattle.std.specs.Prelude.{List, ◌≤◌, vec_capacity};
    ghost use Rattle.policy_types.specs.declared.policy.Policy.{Policy};

    ghost Value = { List Policy };

    ghost view = { λ b. b.policies.items };

    ghost invariant = { λ b. 256 ≤ vec_capacity b.policies };
}

impl PolicyBatch {
    /// Takes the memory for 256 policies, and holds none yet.
    pub fn new(alloc: Global) -> Result<PolicyBatch, NoMemory>
        ensures { IfOk result (λ batch. batch ≡ []) }
    {
        let policies = with_room(alloc, POLICIES_PER_READ as usize)?;
        Ok(PolicyBatch { policies })
    }

    pub fn policies(&self) -> &[Policy]
        ensures { result.now ≡ self.now }
    {
        self.policies.as_slice()
    }
}

impl<D: Disk, W: Watching> OfficeState<D, W> {
    /// The live pin of this number, if there is one.
    pub fn held(&self, pin: u64) -> Option<Held>
        ensures found { IfSome result (λ held. Contains (pins_of self.now) held × (held.number ≡ pin)) }
        ensures none { IfNone result ((held : AHeld) → Contains (pins_of self.now) held → held.number ≡ pin → ⊥) }
    {
        for held in self.pins.as_slice() {
            if held.number == pin {
                return Some(*held);
            }
        }
        None
    }

    /// Fills the batch with the policies at a pin's position, in order of issue, from the index `first` on and 256 of
    /// them at most. The caller holds the pin, and `first` is at most its policies.
    pub fn read(&mut self, caller: u64, pin: u64, first: u32, batch: &mut PolicyBatch)
        requires turns { turns_of self.old < 2 ^ 62 }
        requires held { MayRead (pins_of self.old) caller pin first }
        requires stands { (history : List Entry) × StandsFor self.old history }
        ensures opened { opened_of self.new ≡ opened_of self.old }
        ensures disk { disk_of self.new ≡ disk_of self.old }
        ensures outlet { outlet_of self.new ≡ outlet_of self.old }
        ensures stands { (history : List Entry) → StandsFor self.old history
            → StandsFor self.new (history ++ read_turn caller pin first batch.new ∷ []) }
    {
        let Some(held) = self.held(pin) else {
            unreachable!()
        };
        self.books.fill(first, held.position, &mut batch.policies);
        self.turns += 1;
    }
}
