ghost use Rattle.schedule_laws.specs.Replies.{OnePositionLaw, OneRefusalLaw, OneReplyLaw, RefusedOrNotLaw, SomeReplyLaw};

/// Every call except a posting has one reply; a posting has one position or one refusal.
pub fn one_reply_law()
    ensures reply { OneReplyLaw }
    ensures position { OnePositionLaw }
    ensures refusal { OneRefusalLaw }
    ensures refused { RefusedOrNotLaw }
{}

/// Every call that may be made has a reply.
pub fn some_reply_law()
    ensures { SomeReplyLaw }
{}
