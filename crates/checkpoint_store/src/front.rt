// The first 64 bytes of a checkpoint's file. A number has its high byte first, and a balance is in two's complement.
//
// | at | bytes | field                                                             |
// |----|-------|-------------------------------------------------------------------|
// |  0 |     1 | gate: 1 while the rest is a checkpoint                            |
// |  1 |    16 | LIFECHKP, the version 1 and the size 48 of a policy, four zeros   |
// | 17 |     4 | position: how many commands were accepted                         |
// | 21 |     4 | place of the upgrade among them, counted from 1, or 0             |
// | 25 |     4 | number of policies, which follow from byte 64 on                  |
// | 29 |     8 | cash, in cents                                                    |
// | 37 |     8 | premiums, in cents                                                |
// | 45 |     8 | benefits incurred, in cents                                       |
// | 53 |     8 | benefits payable, in cents                                        |
// | 61 |     3 | zeros                                                             |
ghost use Rattle.std.specs.Prelude.{◌≡◌, ◌∷◌, ◌↔◌, Some, IsTrue, IfSome};
ghost use Rattle.checkpoint_store.specs.Names.{AreWithin, IsWithin, balances};
ghost use Rattle.checkpoint_store.specs.inside.Parsing.{IsFrontInRange, front_in, front_of};
ghost use Rattle.checkpoint_store.specs.inside.Storing.{DoFit};
ghost use Rattle.checkpoint_store.specs.declared.front.Front.{Front as AFront};

use money_ledgers::Ledger;
use policy_types::{MOST_COMMANDS, MOST_REINSTATEMENT_CENTS};
use record_codec::{eight_at, four_at};

pub(crate) const OPEN: u8 = 1;

pub(crate) const CLOSED: u8 = 0;

const GATE_AT: usize = 0;

const HEADER_AT: usize = 1;

const POSITION_AT: usize = 17;

const UPGRADE_AT: usize = 21;

const POLICIES_AT: usize = 25;

const CASH_AT: usize = 29;

const PREMIUMS_AT: usize = 37;

const INCURRED_AT: usize = 45;

const PAYABLE_AT: usize = 53;

const REST_AT: usize = 61;

/// The figures of a snapshot, and how many policies it has.
#[derive(Clone, Copy)]
pub(crate) struct Front {
    pub(crate) position: u32,
    pub(crate) upgrade: u32,
    pub(crate) policies: u32,
    pub(crate) ledger: Ledger,
}

/// The figures behind an open gate.
#[tactic(auto, unfolding(crate::specs::Spelling::position_bytes, crate::specs::Spelling::balance_bytes))]
pub(crate) fn front_with(front: Front) -> [u8; 64]
    ensures { result ≡ 1 ∷ front_of front }
{
    let mut bytes = [0; 64];
    bytes[GATE_AT] = OPEN;
    bytes[HEADER_AT..POSITION_AT].copy_from_slice(b"LIFECHKP\x00\x01\x00\x30\x00\x00\x00\x00");
    bytes[POSITION_AT..UPGRADE_AT].copy_from_slice(&front.position.to_be_bytes());
    bytes[UPGRADE_AT..POLICIES_AT].copy_from_slice(&front.upgrade.to_be_bytes());
    bytes[POLICIES_AT..CASH_AT].copy_from_slice(&front.policies.to_be_bytes());
    bytes[CASH_AT..PREMIUMS_AT].copy_from_slice(&front.ledger.cash.to_be_bytes());
    bytes[PREMIUMS_AT..INCURRED_AT].copy_from_slice(&front.ledger.premiums.to_be_bytes());
    bytes[INCURRED_AT..PAYABLE_AT].copy_from_slice(&front.ledger.incurred.to_be_bytes());
    bytes[PAYABLE_AT..REST_AT].copy_from_slice(&front.ledger.payable.to_be_bytes());
    bytes
}

/// The figures behind an open gate, and `None` exactly where there are none.
#[tactic(auto, using(crate::proofs::Reading::front_read))]
pub(crate) fn front_at(bytes: &[u8; 64]) -> Option<Front>
    ensures some { IfSome result (λ front. bytes.now ≡ 1 ∷ front_of front) }
    ensures exact { (front : AFront) → IsFrontInRange front → bytes.now ≡ 1 ∷ front_of front → result ≡ Some front }
{
    let front = figures_in(bytes);
    if front_with(front).as_slice() == bytes.as_slice() {
        Some(front)
    } else {
        None
    }
}

// The figures at their places. Neither the header nor the zeros are tested.
fn figures_in(bytes: &[u8; 64]) -> Front
    ensures { result ≡ front_in bytes.now }
{
    Front {
        position: u32::from_be_bytes(four_at(bytes, POSITION_AT)),
        upgrade: u32::from_be_bytes(four_at(bytes, UPGRADE_AT)),
        policies: u32::from_be_bytes(four_at(bytes, POLICIES_AT)),
        ledger: Ledger {
            cash: i64::from_be_bytes(eight_at(bytes, CASH_AT)),
            premiums: i64::from_be_bytes(eight_at(bytes, PREMIUMS_AT)),
            incurred: i64::from_be_bytes(eight_at(bytes, INCURRED_AT)),
            payable: i64::from_be_bytes(eight_at(bytes, PAYABLE_AT)),
        },
    }
}

/// Whether the figures are those of a snapshot.
pub(crate) fn fits(front: Front) -> bool
    ensures { IsTrue result ↔ DoFit front }
{
    front.position <= MOST_COMMANDS
        && front.upgrade <= front.position
        && front.policies <= front.position
        && are_within(
            MOST_REINSTATEMENT_CENTS * u64::from(front.position),
            front.ledger,
        )
}

// Whether no balance has more cents, above or below nothing.
fn are_within(most: u64, ledger: Ledger) -> bool
    ensures { IsTrue result ↔ AreWithin most (balances ledger) }
{
    let Ledger {
        cash,
        premiums,
        incurred,
        payable,
    } = ledger;
    are_both_within(most, cash, premiums) && are_both_within(most, incurred, payable)
}

fn are_both_within(most: u64, one: i64, other: i64) -> bool
    ensures { IsTrue result ↔ (IsWithin most one × IsWithin most other) }
{
    one.unsigned_abs() <= most && other.unsigned_abs() <= most
}
