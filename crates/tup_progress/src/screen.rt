//! Where progress is shown.

/// A place that a person looks at.
pub trait Screen: Drop {
    /// Shows a text, as far as that can be done.
    fn show(&mut self, text: &str);

    /// Whether what commands print is kept until they have ended. Else it comes to the screen while they run.
    fn keeps(&self) -> bool;

    /// Shows what the last command printed, where that is kept, as far as that can be done, and keeps it no longer. Texts of
    /// other commands don't come between it and the texts around it.
    fn show_kept(&mut self, around: &Around);
}

/// The texts around what a command printed.
#[derive(Clone, Copy)]
pub struct Around<'a> {
    /// What comes before all, where anything is shown.
    pub clear: &'a str,
    /// What is above it, where the command printed anything.
    pub above: &'a str,
    /// What is below it, also where the command printed nothing.
    pub below: &'a str,
}
