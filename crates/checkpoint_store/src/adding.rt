// The policies of a checkpoint's bytes are added to the books.
ghost use Rattle.std.specs.Prelude.{◌≡◌, ℕ, ◌+◌, ◌*◌, ◌<◌, ◌≤◌, List, length, take, drop, IfErr, IfOk};
ghost use Rattle.memory_requests.specs.Evidence.{a_refusal};
ghost use Rattle.checkpoint_store.specs.declared.faults.ReopenFault.TheVariants.{NoMemory};
ghost use Rattle.checkpoint_store.specs.declared.front.Front.{Front};
ghost use Rattle.checkpoint_store.specs.inside.Storing.{AreBegun, AreBytesOf, AreUpTo, BegunNext, UpToNext, WasAdded};

use crate::ReopenFault;
use crate::numbered::NumberedBooks;
use crate::policies::policy_at;
use memory_requests::insert;

impl NumberedBooks {
    /// Adds the policies that the first bytes spell, one after the other, where each is one of a new number.
    pub(crate) fn add_all(&mut self, bytes: &[u8], many: u32) -> Result<bool, ReopenFault>
        requires { 48 * many ≤ length bytes.now }
        ensures memory { IfErr result (λ fault. fault ≡ NoMemory a_refusal) }
        ensures begun { (f : Front) (first : ℕ) → AreBegun f first self.old
            → IfOk result (λ added. BegunNext f (first + many) self.new added) }
        ensures next { (file : List ℕ) (f : Front) (first : ℕ) → first + many ≤ f.policies → AreBytesOf file first many bytes.now
            → AreBegun f first self.old → AreUpTo file f first self.old
            → IfOk result (λ added. UpToNext file f (first + many) self.new added) }
    {
        for index in 0..many {
            if !self.add_at(bytes, index)? {
                return Ok(false);
            }
        }
        Ok(true)
    }

    // Adds the policy of an index among the bytes.
    #[tactic(auto, using(crate::proofs::InStore::up_to_one_more, crate::proofs::InStore::begun_one_more))]
    fn add_at(&mut self, bytes: &[u8], index: u32) -> Result<bool, ReopenFault>
        requires { 48 * (index + 1) ≤ length bytes.now }
        ensures memory { IfErr result (λ fault. fault ≡ NoMemory a_refusal) }
        ensures begun { (f : Front) (first : ℕ) → AreBegun f (first + index) self.old
            → IfOk result (λ added. BegunNext f (first + (index + 1)) self.new added) }
        ensures next { (file : List ℕ) (f : Front) (first many : ℕ) → index < many → first + many ≤ f.policies → AreBytesOf file first many bytes.now
            → AreBegun f (first + index) self.old → AreUpTo file f (first + index) self.old
            → IfOk result (λ added. UpToNext file f (first + (index + 1)) self.new added) }
    {
        self.add(&bytes_at(bytes, index))
    }

    // Adds the policy that these bytes spell, where they spell one of a new number.
    #[tactic(auto, using(crate::proofs::InStore::added_last))]
    fn add(&mut self, bytes: &[u8; 48]) -> Result<bool, ReopenFault>
        ensures memory { IfErr result (λ fault. fault ≡ NoMemory a_refusal) }
        ensures added { IfOk result (λ added. WasAdded bytes.now self.old self.new added) }
    {
        let Some(policy) = policy_at(bytes) else {
            return Ok(false);
        };
        match insert(&mut self.policies, policy.id, policy) {
            Ok(None) => Ok(true),
            Ok(Some(_)) => Ok(false),
            Err(lack) => Err(ReopenFault::NoMemory(lack)),
        }
    }
}

// The bytes of the policy of an index.
fn bytes_at(bytes: &[u8], index: u32) -> [u8; 48]
    requires { 48 * (index + 1) ≤ length bytes.now }
    ensures { result ≡ take 48 (drop (48 * index) bytes.now) }
{
    let mut policy = [0; 48];
    let at = 48 * index as usize;
    policy.copy_from_slice(&bytes[at..at + 48]);
    policy
}
