// A command as the body of a record, and the command that a body spells.
ghost use Rattle.std.specs.Prelude.{◌≡◌, ℕ, List, Some, IfSome};
ghost use Rattle.record_codec.specs.Names.{IsValid, Command};
ghost use Rattle.record_codec.specs.Spelling.{spelling_of, IsSpelling};

use crate::body::{body_with, fields_at};
use crate::fields::{command_with, fields_with};
use policy_types::Command;

/// The body of a record, 64 bytes, that spells a valid command.
pub fn encode(command: &Command) -> [u8; 64]
    requires { IsValid command.now }
    ensures { result ≡ spelling_of command.now }
{
    body_with(fields_with(command))
}

/// The valid command that a record's body spells, and `None` exactly where it spells none.
pub fn decode(body: &[u8; 64]) -> Option<Command>
    ensures some { IfSome result (IsSpelling body.now) }
    ensures exact { (command : Command) → IsSpelling body.now command → result ≡ Some command }
{
    let command = command_in(body)?;
    if command.is_valid() && encode(&command).as_slice() == body.as_slice() {
        Some(command)
    } else {
        None
    }
}

// The command whose fields stand in the body. What else the body holds isn't tested.
fn command_in(body: &[u8; 64]) -> Option<Command>
    ensures { (command : Command) → IsSpelling body.now command → result ≡ Some command }
{
    command_with(fields_at(body))
}

/// No body spells two commands.
pub fn spells_one_command()
    ensures { (body : List ℕ) (c d : Command) → IsSpelling body c → IsSpelling body d
        → c ≡ d }
{}
