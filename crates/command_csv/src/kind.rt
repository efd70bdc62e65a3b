ghost use Rattle.std.specs.Prelude.{◌≡◌, ◌≢◌, IfSome, IfNone};
ghost use Rattle.command_csv.specs.inside.Forms.{kind_spelling};
ghost use Rattle.command_csv.specs.declared.kind.Kind.{Kind as AKind};

/// The kinds of lines.
#[derive(Clone, Copy, PartialEq, Eq, Debug)]
pub enum Kind {
    Issue,
    Premium,
    Alter,
    Lapse,
    Reinstate,
    Claim,
    Settle,
    Mature,
    PaidUp,
    Upgrade,
    Value,
    Trim,
}

/// The kind with this word.
pub fn kind_of(word: &[u8]) -> Option<Kind>
    ensures some { IfSome result (λ kind. word.now ≡ kind_spelling kind) }
    ensures none { IfNone result ((kind : AKind) → word.now ≢ kind_spelling kind) }
{
    match word {
        b"issue" => Some(Kind::Issue),
        b"premium" => Some(Kind::Premium),
        b"alter" => Some(Kind::Alter),
        b"lapse" => Some(Kind::Lapse),
        b"reinstate" => Some(Kind::Reinstate),
        b"claim" => Some(Kind::Claim),
        b"settle" => Some(Kind::Settle),
        b"mature" => Some(Kind::Mature),
        b"paidup" => Some(Kind::PaidUp),
        b"upgrade" => Some(Kind::Upgrade),
        b"value" => Some(Kind::Value),
        b"trim" => Some(Kind::Trim),
        _ => None,
    }
}
