//! Worked cases of alterations.

ghost use Rattle.policy_machine.specs.Worked.Alterations.{AlterBeforeLast, AlterGraceOver, AlterNotAReduction, AlterTermOver, AlterUnknown, AlterWrongStatus, Altered};

/// The reasons to refuse an alteration, in their order.
pub fn alter_refusals()
    ensures unknown { AlterUnknown }
    ensures before_last { AlterBeforeLast }
    ensures wrong_status { AlterWrongStatus }
    ensures term_over { AlterTermOver }
    ensures grace_over { AlterGraceOver }
    ensures not_a_reduction { AlterNotAReduction }
{}

/// What an alteration changes.
pub fn altered()
    ensures { Altered }
{}
