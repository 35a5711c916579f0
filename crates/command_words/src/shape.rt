//! What a command takes.

/// The arguments that a command takes, by their names. Each is given at most once.
#[derive(Clone, Copy)]
pub struct Shape<'a> {
    /// Options without a value.
    pub flags: &'a [&'a str],
    /// Options with a value.
    pub options: &'a [&'a str],
    /// What the other arguments are, in their order.
    pub values: &'a [&'a str],
    /// How the command is written, behind `bank `.
    pub usage: &'a str,
}
