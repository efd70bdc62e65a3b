// Why there is no basis.
use basis_book::Name;
use policy_types::NoMemory;

/// What is wrong with a file of a basis.
#[derive(Clone, Copy, PartialEq, Eq, Debug)]
pub enum BasisWord {
    /// There is no file of this name.
    Absent,
    /// The file has more than 4 MiB.
    TooLong,
    /// A row of the basis file isn't one.
    BadRow,
    /// The day of a basis row isn't after that of the row before.
    NotRising,
    /// The basis file has more than 1,000 rows.
    TooManyRows,
    /// The table file isn't a document.
    NotDocument,
    /// The table file's root isn't `XTbML`, or the path to its rates breaks off.
    NoTable,
    /// The rates are to be multiplied by a factor other than 1.
    Scaled,
    /// An age is absent, or isn't a whole number from 0 to 130.
    BadAge,
    /// An age isn't one more than the age before.
    AgeGap,
    /// A rate isn't a number from 0 to 1 of at most nine places.
    BadRate,
    /// An age at issue has no rate, or a rate of it the wrong duration.
    BadDuration,
    /// There are no ultimate rates behind the select ones.
    NoUltimate,
    /// The ultimate rates begin later than right behind a select period that they go on after.
    UltimateGap,
}

/// The first file of a basis that is absent, too long or refused.
#[derive(Drop)]
pub struct BadBasis {
    /// The name of the basis file, or of a table file.
    pub name: Name,
    /// 0 for a basis file that is absent or too long, the row for a bad one and 1,001 for too many. Of a table file
    /// that is absent or too long the first basis row that names it, else the place in bytes.
    pub place: u32,
    pub word: BasisWord,
}

/// Why a basis wasn't fetched.
#[derive(Drop)]
pub enum NoBasis {
    /// A file is absent, too long or refused.
    Bad(BadBasis),
    /// The shelf failed.
    ReadFault,
    /// There was no memory.
    NoMemory(NoMemory),
}
