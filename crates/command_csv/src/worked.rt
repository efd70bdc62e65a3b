// Worked scripts, each a theorem over the definitions alone.
ghost use Rattle.command_csv.specs.Worked.{AlterLine, ClaimLine, IssueLine, LapseLine, MatureLine, NoClerk, NoClerkBefore, NoClerkNorKind, NoDay, NoWorkers, OddScript, OneTooMany, OneTooManyOfNoClerk, OneValuationTooMany, PaidUpLine, PremiumLine, ReinstateLine, SettleLine, ThreeClerks, TrimLine, TrimOfSomething, UpgradeLine, ValueAtLine, ValueLine};

/// How a line of each kind is written.
pub fn lines_are_written()
    ensures issue { IssueLine }
    ensures premium { PremiumLine }
    ensures alter { AlterLine }
    ensures lapse { LapseLine }
    ensures reinstate { ReinstateLine }
    ensures claim { ClaimLine }
    ensures settle { SettleLine }
    ensures mature { MatureLine }
    ensures paid_up { PaidUpLine }
    ensures upgrade { UpgradeLine }
    ensures value { ValueLine }
    ensures value_at { ValueAtLine }
    ensures trim { TrimLine }
{}

/// Quotes, empty lines, a byte order mark, and the ends that a row may have.
pub fn odd_scripts_are_read()
    ensures { OddScript }
{}

/// Rows of several lanes, mixed.
pub fn lanes_are_dealt()
    ensures { ThreeClerks }
{}

/// The place of a lane's number that is none, of a field that is missing, of a field too many, and of the kind of a
/// valuation too many.
pub fn faults_are_placed()
    ensures clerk { NoClerk }
    ensures clerk_0 { NoClerkBefore }
    ensures clerk_first { NoClerkNorKind }
    ensures missing { NoDay }
    ensures surplus { OneTooMany }
    ensures trim { TrimOfSomething }
    ensures workers { NoWorkers }
    ensures valuations { OneValuationTooMany }
    ensures valuations_of_none { OneTooManyOfNoClerk }
{}
