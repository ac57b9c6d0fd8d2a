use commands::Short;

/// The answer to an accepted command, or to one that came again.
#[derive(Clone, Copy)]
pub struct Reply {
    pub text: Short,
    /// Whether an earlier act bore the key, so that nothing was done.
    pub repeated: bool,
}
