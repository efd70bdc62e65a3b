//! Worked cases of what a run and `state` write, each a theorem over the definitions alone.

ghost use Rattle.life_app.specs.Worked.{BothRefuseHello, BothWords, ClaimedBooks, ClaimedEntries, TwoFilings, NoWordsLine, OtherLines, PostingLines, RefusalTexts, StatusTexts, ToldApart, TwoClerks, UpgradeLines, WatcherLines};

use outside_io::Disk;

/// Each refusal has its word, and its value if it has one.
pub fn refusal_texts()
    ensures { RefusalTexts }
{}

/// Each status has its word.
pub fn status_texts()
    ensures { StatusTexts }
{}

/// A posting has one line, by its kind and its answer.
pub fn posting_lines()
    ensures { PostingLines }
{}

/// An upgrade and a paid-up policy have their lines.
pub fn upgrade_lines()
    ensures { UpgradeLines }
{}

/// A trim has one line, and so has a valuation without rows.
pub fn other_lines()
    ensures { OtherLines }
{}

/// The lines of two lanes are in the order of their turns.
pub fn two_clerks()
    ensures { TwoClerks }
{}

/// Each watcher has one line, and no watchers have none.
pub fn watcher_lines()
    ensures { WatcherLines }
{}

/// All policies and the balances after a claim.
pub fn claimed_books()
    ensures { ClaimedBooks }
{}

/// The entries of a policy that is claimed, and of a number that no policy has.
pub fn claimed_entries()
    ensures { ClaimedEntries }
{}

/// Which arguments open both disks, and how these modes end over a file that is no journal, or without memory.
pub fn words_for_both<D: Disk, E: Disk>()
    ensures words { BothWords }
    ensures faults { TwoFilings }
    ensures refused { BothRefuseHello D.Disk E.Disk }
    ensures unread { NoWordsLine }
{}

/// Replies and rows that the texts distinguish.
pub fn texts_are_told_apart()
    ensures { ToldApart }
{}
