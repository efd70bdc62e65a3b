// A text in parts.
ghost use Rattle.std.specs.Prelude.{◌≡◌, ◌++◌, [], OnOk};
ghost use Rattle.std.specs.List.{flat_map};

use memory_requests::push;
use policy_types::NoMemory;
use std::alloc::Global;
use std::marker::Model;
use text_lines::Text;

/// A text in parts, which are never joined: they are written one after the other. Contracts see the bytes of all.
#[derive(Drop)]
pub struct TextParts {
    parts: Vec<Text>,
}

impl Model for TextParts {
    ghost use Rattle.std.specs.Prelude.{List, ℕ};
    ghost use Rattle.std.specs.List.{flat_map};

    ghost Value = { List ℕ };

    ghost view = { λ t. flat_map (λ part. part) t.parts.items };
}

impl TextParts {
    pub(crate) fn new(alloc: Global) -> TextParts
        ensures { result ≡ [] }
    {
        TextParts {
            parts: Vec::new(alloc),
        }
    }

    // Adds a part after the others.
    pub(crate) fn push(&mut self, part: Text) -> Result<(), NoMemory>
        ensures { OnOk result (self.new ≡ self.old ++ part) }
    {
        push(&mut self.parts, part)
    }

    /// The parts, in their order.
    pub fn as_slice(&self) -> &[Text]
        ensures { flat_map (λ part. part) result.now ≡ self.now }
    {
        self.parts.as_slice()
    }
}
