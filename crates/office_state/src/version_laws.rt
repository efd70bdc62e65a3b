//! The laws that tie a book of versions to the rules of policies, each over all lists of commands: a function that does
//! nothing, whose contract is the law.
ghost use Rattle.office_state.specs.versions.Steps.{AcceptedSetLaw, RefusedSetLaw, RisingLaw, SetCountLaw, SetsAfterLaw, UpgradeSetLaw};
ghost use Rattle.office_state.specs.versions.Policies.{EachSetLaw, NewestPolicyLaw, PolicyAtLaw};
ghost use Rattle.office_state.specs.versions.Places.{BookAtLaw, IndexLaw, KeyCountLaw, KeysLaw, UntilLaw};

/// One more command sets one policy at the next position where the rules make one of it, and else nothing.
pub fn step_law()
    ensures accepted { AcceptedSetLaw }
    ensures refused { RefusedSetLaw }
    ensures upgrade { UpgradeSetLaw }
{}

/// The positions rise up to the number of commands, and there are no more settings after a floor than commands.
pub fn count_law()
    ensures rising { RisingLaw }
    ensures count { SetCountLaw }
    ensures after { SetsAfterLaw }
{}

/// A policy's value at a position is the policy after so many commands, and its newest value the policy after all.
pub fn policy_law()
    ensures at { PolicyAtLaw }
    ensures newest { NewestPolicyLaw }
{}

/// Each of accepted commands but an upgrade sets its policy once: at its own place, to what the policy then is.
pub fn each_set_law()
    ensures { EachSetLaw }
{}

/// The keys that were set by a position are the numbers issued by then, in their order.
pub fn keys_law()
    ensures until { UntilLaw }
    ensures keys { KeysLaw }
    ensures count { KeyCountLaw }
{}

/// The book at a position is the list of the values there, over the keys that were set by then.
pub fn book_law()
    ensures book { BookAtLaw }
    ensures index { IndexLaw }
{}
