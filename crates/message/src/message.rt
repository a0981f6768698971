use super::command::Command;
use super::parameters::Parameters;

/// What a command message asks for.
#[derive(Clone, Copy, PartialEq, Eq, Debug)]
pub struct Message {
    pub parameters: Parameters,
    pub command: Option<Command>,
}
