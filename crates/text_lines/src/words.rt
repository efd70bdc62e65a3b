// The words of scripts, transcripts and statements.
ghost use Rattle.std.specs.Prelude.{◌≡◌};
ghost use Rattle.policy_types.specs.Words as spec;

use policy_types::{Command, Plan, Status};

/// The word of a command's kind.
pub fn kind_word(command: &Command) -> &'static str
    ensures { result.now ≡ spec.kind_word command.now }
{
    match *command {
        Command::Issue { .. } => "issue",
        Command::Premium { .. } => "premium",
        Command::Alter { .. } => "alter",
        Command::Lapse { .. } => "lapse",
        Command::Reinstate { .. } => "reinstate",
        Command::Claim { .. } => "claim",
        Command::Settle { .. } => "settle",
        Command::Mature { .. } => "mature",
        Command::PaidUp { .. } => "paidup",
        Command::Upgrade => "upgrade",
    }
}

/// The word of a plan.
pub fn plan_word(plan: Plan) -> &'static str
    ensures { result.now ≡ spec.plan_word plan }
{
    match plan {
        Plan::Term => "term",
        Plan::Whole => "whole",
        Plan::Endowment => "endowment",
        Plan::Limited => "limited",
    }
}

/// The word of a policy's status.
pub fn status_word(status: Status) -> &'static str
    ensures { result.now ≡ spec.status_word status }
{
    match status {
        Status::InForce => "inforce",
        Status::Lapsed => "lapsed",
        Status::Claimed => "claimed",
        Status::Matured => "matured",
        Status::Expired => "expired",
        Status::Settled => "settled",
        Status::PaidUp => "paidup",
    }
}
