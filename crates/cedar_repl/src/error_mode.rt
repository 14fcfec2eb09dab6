//! The treatment of an invalid line in a conversation.

/// The treatment of a line that is not a command.
#[derive(Clone, Copy, Debug, PartialEq, Eq)]
pub enum ErrorMode {
    /// An invalid line has an output and no other effect, and the conversation continues. The output for `help` is the
    /// help text. The outputs for `help store`, `help policies` and `help fields` are its parts. The output for any
    /// other invalid line names its number.
    Lenient,
    /// An invalid line ends the conversation with status 2, as it ends a run. The line `help` does so too, because it
    /// is not a command of a run.
    Strict,
}
