// What the definitions of an office's file have to mean, as functions that do nothing.
ghost use Rattle.std.specs.Prelude.{◌≡◌, ◌⊎◌, ℕ, List};
ghost use Rattle.policy_types.specs.declared.command.Command.{Command};
ghost use Rattle.office_state.specs.Journals.{IsOfTheFile, IsShown, Opens, OpensToNone};
ghost use Rattle.office_state.specs.declared.faults.StartCause.{StartCause};

/// A file opens to one list of commands at most.
pub fn one_list_of_commands()
    ensures { (bytes : List ℕ) (commands others : List Command) → Opens bytes commands → Opens bytes others
        → commands ≡ others }
{}

/// A file that is refused for what its bytes are opens to no list of commands.
pub fn refused_files_open_to_none()
    ensures { (bytes : List ℕ) (cause : StartCause) → IsOfTheFile cause → IsShown bytes cause → OpensToNone bytes }
{}

/// A file that is refused for what its bytes are is refused for one cause, and at one record.
pub fn one_cause_of_refusal()
    ensures { (bytes : List ℕ) (cause other : StartCause) → IsOfTheFile cause → IsOfTheFile other
        → IsShown bytes cause → IsShown bytes other → cause ≡ other }
{}

/// A file opens to some commands, or is refused for a cause that its bytes show.
pub fn files_open_or_show_why()
    ensures { (bytes : List ℕ) → ((commands : List Command) × Opens bytes commands)
        ⊎ ((cause : StartCause) × IsOfTheFile cause × IsShown bytes cause) }
{}
