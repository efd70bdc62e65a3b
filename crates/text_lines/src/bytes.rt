ghost use Rattle.std.specs.Prelude.{◌≡◌, ◌+◌, ◌<◌, ◌++◌, ℕ, List, OnErr, OnOk, length, vec_capacity, vec_len};

use memory_requests::extend;
use policy_types::NoMemory;
use std::marker::Model;

/// Bytes of output, which contracts see as their list.
#[derive(Debug, Drop)]
pub struct Text {
    bytes: Vec<u8>,
}

impl Model for Text {
    ghost Value = { List ℕ };

    ghost view = { λ t. t.bytes.items };
}

impl Text {
    /// The text of these bytes, which are taken as they are.
    pub fn new(bytes: Vec<u8>) -> Text
        ensures { result ≡ bytes.items }
    {
        Text { bytes }
    }

    pub fn as_slice(&self) -> &[u8]
        ensures { result.now ≡ self.now }
    {
        self.bytes.as_slice()
    }

    pub fn into_vec(self) -> Vec<u8>
        ensures { result.items ≡ self }
    {
        let Text { bytes } = self;
        bytes
    }
}

/// Adds more to a text. Memory is asked for only if the text has no capacity for it; if it is refused, the text stays
/// as it was.
pub fn add(text: &mut Vec<u8>, more: &[u8]) -> Result<(), NoMemory>
    ensures written { OnOk result (text.new.items ≡ text.old.items ++ more.now) }
    ensures refused { OnErr result (text.new.items ≡ text.old.items) }
    ensures full { OnErr result (vec_capacity text.old < vec_len text.old + length more.now) }
{
    extend(text, more)
}
