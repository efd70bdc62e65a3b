ghost use Rattle.std.specs.Prelude.{◌≡◌};
ghost use Rattle.memory_requests.specs.Evidence.{a_refusal};
ghost use Rattle.xtbml_subset.specs.declared.fault.TableFault.TheVariants.{NoMemory};

use memory_requests::NoMemory;

/// What is wrong with a table file, in the order in which it is checked.
#[derive(Clone, Copy, PartialEq, Eq, Debug)]
pub enum TableKind {
    /// The file isn't a document.
    NotDocument,
    /// The root isn't `XTbML`, or an element on the path to the rates is missing.
    NoTable,
    /// The rates depend on the duration too.
    Select,
    /// The rates are to be multiplied by a factor other than 1.
    Scaled,
    /// An age is missing, or isn't a whole number from 0 to 130.
    BadAge,
    /// An age isn't the age before it plus one.
    AgeGap,
    /// A rate isn't a number from 0 to 1 with at most nine decimal places.
    BadRate,
    /// An issue age has no rate; or one of its rates has no duration, has a first duration that is neither 0 nor 1,
    /// has a duration that isn't the one before it plus one, or has one that goes past age 130.
    BadDuration,
    /// There are no ultimate rates after the select ones.
    NoUltimate,
    /// The ultimate rates begin later than directly after a select period although they go on after it.
    UltimateGap,
}

/// Why a file isn't read as a table.
#[derive(Clone, Copy, PartialEq, Eq, Debug)]
pub enum TableFault {
    /// What is wrong, and its place in bytes from the start of the file.
    Bad { at: u32, kind: TableKind },
    /// Memory for the rates was refused.
    NoMemory(NoMemory),
}

impl From<NoMemory> for TableFault {
    ghost from_gives = { λ _lack fault. fault ≡ NoMemory a_refusal };

    fn from(lack: NoMemory) -> TableFault {
        TableFault::NoMemory(lack)
    }
}
