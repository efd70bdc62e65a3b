// The tally of a list of policies.
ghost use Rattle.std.specs.Prelude.{◌≤◌, length};
ghost use Rattle.cash_projection.specs.Names.{AllByRecursion, most_commands};
ghost use Rattle.cash_projection.specs.Policies.{IsOfIssue};
ghost use Rattle.cash_projection.specs.inside.Paths.{ArePaths};
ghost use Rattle.cash_projection.specs.inside.Tallies.{IsTallyOf};

use crate::paths::Paths;
use crate::tally::Tally;
use basis_book::Basis;
use policy_types::Policy;

/// The tally of policies on a day, in days since 1970-01-01. It asks for no memory.
pub fn tally_policies(
    policies: &[Policy],
    basis: &Basis,
    on: i32,
    years: u8,
    paths: &mut Paths,
) -> Tally
    requires sound { AllByRecursion IsOfIssue policies.now }
    requires few { length policies.now ≤ most_commands }
    requires years { years ≤ 131 }
    requires right { ArePaths basis.now paths.old }
    ensures tally { IsTallyOf basis.now on years policies.now result }
    ensures right { ArePaths basis.now paths.new }
{
    let mut tally = Tally::new(years);
    for policy in policies {
        tally.add(policy, basis, on, paths);
    }
    tally
}
