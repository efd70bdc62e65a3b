ghost use Rattle.std.specs.Prelude.{◌≡◌, ◌≢◌, IfSome, IfNone};
ghost use Rattle.life_args.specs.declared.verb.Verb.{Verb};
ghost use Rattle.life_args.specs.inside.Verbs.{verb_word};

/// What the first argument may be.
#[derive(Clone, Copy, PartialEq, Eq, Debug)]
pub enum Verb {
    Run,
    Value,
    Project,
    State,
    Checkpoint,
    Generate,
    Load,
}

/// The verb that an argument is, if it is one.
pub fn verb_named(word: &str) -> Option<Verb>
    ensures some { IfSome result (λ verb. word.now ≡ verb_word verb) }
    ensures none { IfNone result ((verb : Verb) → word.now ≢ verb_word verb) }
{
    match word.as_bytes() {
        b"run" => Some(Verb::Run),
        b"value" => Some(Verb::Value),
        b"project" => Some(Verb::Project),
        b"state" => Some(Verb::State),
        b"checkpoint" => Some(Verb::Checkpoint),
        b"generate" => Some(Verb::Generate),
        b"load" => Some(Verb::Load),
        _ => None,
    }
}
