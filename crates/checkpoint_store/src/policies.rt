// The 48 bytes of a policy in a checkpoint's file. A number has its high byte first, and a day is in two's complement.
//
// | at | bytes | field                                          |
// |----|-------|------------------------------------------------|
// |  0 |     4 | number                                         |
// |  4 |     1 | plan, 1 to 4                                   |
// |  5 |     1 | age at issue                                   |
// |  6 |     1 | years of the plan                              |
// |  7 |     1 | premiums paid                                  |
// |  8 |     1 | status, 1 to 7                                 |
// |  9 |     3 | zeros                                          |
// | 12 |     4 | day of issue, counted from 1970-01-01          |
// | 16 |     4 | day of the last command                        |
// | 20 |     8 | amount, in cents                               |
// | 28 |     8 | premium, in cents                              |
// | 36 |     8 | outstanding of a benefit, in cents             |
// | 44 |     4 | zeros                                          |
ghost use Rattle.std.specs.Prelude.{◌≡◌, ◌*◌, ◌≤◌, Some, IfSome, length, take};
ghost use Rattle.std.specs.List.{flat_map};
ghost use Rattle.checkpoint_store.specs.Names.{APolicy, IsSound};
ghost use Rattle.checkpoint_store.specs.Spelling.{policy_bytes, status_byte};
ghost use Rattle.checkpoint_store.specs.inside.Parsing.{policy_of_bytes, status_of_byte};

use policy_machine::is_sound;
use policy_types::{Plan, Policy, Status};
use record_codec::{byte_of_plan, eight_at, four_at, plan_in_byte};

const ID_AT: usize = 0;

const PLAN_AT: usize = 4;

const AGE_AT: usize = 5;

const YEARS_AT: usize = 6;

const PAID_AT: usize = 7;

const STATUS_AT: usize = 8;

const ISSUED_AT: usize = 12;

const LAST_AT: usize = 16;

const AMOUNT_AT: usize = 20;

const PREMIUM_AT: usize = 28;

const OUTSTANDING_AT: usize = 36;

const FILL_AT: usize = 44;

// So many policies are written at once, which are 96 KiB.
pub(crate) const IN_PIECE: usize = 2048;

/// Spells these policies at the start of the piece.
pub(crate) fn fill(piece: &mut [u8; 98_304], policies: &[Policy])
    requires { length policies.now ≤ 2048 }
    ensures { take (48 * length policies.now) piece.new ≡ flat_map policy_bytes policies.now }
{
    let mut done = 0;
    while done < policies.len() {
        let at = 48 * done;
        piece[at..at + 48].copy_from_slice(&policy_with(&policies[done]));
        done += 1;
    }
}

#[tactic(auto, unfolding(crate::specs::Spelling::policy_bytes))]
fn policy_with(policy: &Policy) -> [u8; 48]
    ensures { result ≡ policy_bytes policy.now }
{
    let policy = *policy;
    let mut bytes = [0; 48];
    bytes[ID_AT..PLAN_AT].copy_from_slice(&policy.id.to_be_bytes());
    bytes[PLAN_AT] = byte_of_plan(policy.plan);
    bytes[AGE_AT] = policy.age;
    bytes[YEARS_AT] = policy.years;
    bytes[PAID_AT] = policy.paid;
    bytes[STATUS_AT] = byte_of_status(policy.status);
    bytes[ISSUED_AT..LAST_AT].copy_from_slice(&policy.issued.to_be_bytes());
    bytes[LAST_AT..AMOUNT_AT].copy_from_slice(&policy.last.to_be_bytes());
    bytes[AMOUNT_AT..PREMIUM_AT].copy_from_slice(&policy.amount.to_be_bytes());
    bytes[PREMIUM_AT..OUTSTANDING_AT].copy_from_slice(&policy.premium.to_be_bytes());
    bytes[OUTSTANDING_AT..FILL_AT].copy_from_slice(&policy.outstanding.to_be_bytes());
    bytes
}

/// The sound policy that 48 bytes spell, and `None` exactly where they spell none.
pub(crate) fn policy_at(bytes: &[u8; 48]) -> Option<Policy>
    ensures some { IfSome result (λ policy. (bytes.now ≡ policy_bytes policy) × IsSound policy) }
    ensures exact { (policy : APolicy) → IsSound policy → bytes.now ≡ policy_bytes policy → result ≡ Some policy }
{
    let policy = policy_in(bytes)?;
    if is_sound(policy) && policy_with(&policy).as_slice() == bytes.as_slice() {
        Some(policy)
    } else {
        None
    }
}

// The policy at the bytes' places. Its zeros aren't tested.
#[tactic(auto, using(crate::proofs::Reading::policy_read))]
fn policy_in(bytes: &[u8; 48]) -> Option<Policy>
    ensures { (policy : APolicy) → IsSound policy → bytes.now ≡ policy_bytes policy → result ≡ Some policy }
{
    let plan = plan_in_byte(bytes[PLAN_AT])?;
    let status = status_in_byte(bytes[STATUS_AT])?;
    Some(fields_in(bytes, plan, status))
}

fn fields_in(bytes: &[u8; 48], plan: Plan, status: Status) -> Policy
    ensures { result ≡ policy_of_bytes bytes.now plan status }
{
    Policy {
        id: u32::from_be_bytes(four_at(bytes, ID_AT)),
        plan,
        age: bytes[AGE_AT],
        years: bytes[YEARS_AT],
        amount: u64::from_be_bytes(eight_at(bytes, AMOUNT_AT)),
        premium: u64::from_be_bytes(eight_at(bytes, PREMIUM_AT)),
        issued: i32::from_be_bytes(four_at(bytes, ISSUED_AT)),
        last: i32::from_be_bytes(four_at(bytes, LAST_AT)),
        paid: bytes[PAID_AT],
        status,
        outstanding: u64::from_be_bytes(eight_at(bytes, OUTSTANDING_AT)),
    }
}

fn byte_of_status(status: Status) -> u8
    ensures { result ≡ status_byte status }
{
    match status {
        Status::InForce => 1,
        Status::Lapsed => 2,
        Status::Claimed => 3,
        Status::Matured => 4,
        Status::Expired => 5,
        Status::Settled => 6,
        Status::PaidUp => 7,
    }
}

fn status_in_byte(byte: u8) -> Option<Status>
    ensures { result ≡ status_of_byte byte }
{
    match byte {
        1 => Some(Status::InForce),
        2 => Some(Status::Lapsed),
        3 => Some(Status::Claimed),
        4 => Some(Status::Matured),
        5 => Some(Status::Expired),
        6 => Some(Status::Settled),
        7 => Some(Status::PaidUp),
        _ => None,
    }
}
