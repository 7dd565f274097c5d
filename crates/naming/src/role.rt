// What the names of a POU are for.
ghost use Rattle.std.specs.Prelude.{◌≡◌};
ghost use Rattle.naming.specs.Scopes.{role_of, step_role, action_role, is_local, is_input, is_seen, is_result, is_step, is_action, is_transition};

use source_tree::Section;

/// What a name of a POU is for: that of a variable of VAR_INPUT, VAR_OUTPUT, VAR, VAR_TEMP or VAR CONSTANT, or of the result of a
/// FUNCTION, by its own name; or in a chart that of a step, which may be the initial one, of an action, which some step may set or
/// reset so that it is stored, or of a transition.
#[derive(Clone, Copy)]
pub enum Role {
    Input,
    Output,
    Local,
    Temporary,
    Constant,
    Result,
    Step,
    InitialStep,
    Action,
    StoredAction,
    Transition,
}

impl Role {
    /// What the name of a step is for.
    pub fn of_step(is_initial: bool) -> Role
        ensures { result ≡ step_role is_initial }
    {
        if is_initial {
            Role::InitialStep
        } else {
            Role::Step
        }
    }

    /// What the name of an action is for.
    pub fn of_action(is_stored: bool) -> Role
        ensures { result ≡ action_role is_stored }
    {
        if is_stored {
            Role::StoredAction
        } else {
            Role::Action
        }
    }

    /// What the variables of a section are for.
    pub fn of(section: Section) -> Role
        ensures { result ≡ role_of section }
    {
        match section {
            Section::Input => Role::Input,
            Section::Output => Role::Output,
            Section::Local => Role::Local,
            Section::Temporary => Role::Temporary,
            Section::Constant => Role::Constant,
        }
    }

    /// Whether a variable is one of VAR, which may be an instance.
    pub fn is_local(self) -> bool
        ensures { result ≡ is_local self }
    {
        matches!(self, Role::Local)
    }

    /// Whether a variable is an input.
    pub fn is_input(self) -> bool
        ensures { result ≡ is_input self }
    {
        matches!(self, Role::Input)
    }

    /// Whether a variable is seen from outside.
    pub fn is_seen(self) -> bool
        ensures { result ≡ is_seen self }
    {
        matches!(self, Role::Input | Role::Output)
    }

    /// Whether a variable is a FUNCTION's result.
    pub fn is_result(self) -> bool
        ensures { result ≡ is_result self }
    {
        matches!(self, Role::Result)
    }

    /// Whether a name is that of a step.
    pub fn is_step(self) -> bool
        ensures { result ≡ is_step self }
    {
        matches!(self, Role::Step | Role::InitialStep)
    }

    /// Whether a name is that of an action.
    pub fn is_action(self) -> bool
        ensures { result ≡ is_action self }
    {
        matches!(self, Role::Action | Role::StoredAction)
    }

    /// Whether a name is that of a transition.
    pub fn is_transition(self) -> bool
        ensures { result ≡ is_transition self }
    {
        matches!(self, Role::Transition)
    }
}
