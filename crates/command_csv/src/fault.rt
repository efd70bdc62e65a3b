ghost use Rattle.std.specs.Prelude.{◌≡◌};
ghost use Rattle.command_csv.specs.declared.fault.ScriptFault.TheVariants as fault;

use policy_types::NoMemory;

/// Why a script wasn't read.
#[derive(Clone, Copy, PartialEq, Eq, Debug)]
pub enum ScriptFault {
    /// The first row, counted from 1, that is no line, and its first field, counted from 1, that doesn't fit.
    BadRow { row: u32, field: u32 },
    NoMemory(NoMemory),
}

impl From<NoMemory> for ScriptFault {
    ghost from_gives = { λ lack e. e ≡ fault.NoMemory lack };

    fn from(lack: NoMemory) -> ScriptFault {
        ScriptFault::NoMemory(lack)
    }
}
