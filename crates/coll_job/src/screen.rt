//! The screen that the user sees while the program works.

/// Standard error, which may be a terminal.
pub trait Screen {
    /// Whether it is a terminal, so that a user may see it.
    fn is_watched(&self) -> bool;

    /// Which of the standard streams take colours.
    fn colors(&self) -> Colors;

    /// Shows a text. A failure is ignored.
    fn show(&self, text: &str);
}

/// Which streams take colours: those that are terminals, where nobody asked for no colours.
#[derive(Clone, Copy, Debug, PartialEq, Eq)]
pub struct Colors {
    pub output: bool,
    pub errors: bool,
}

/// A screen that nobody sees.
#[derive(Clone, Copy, Debug)]
pub struct NoScreen;

impl Screen for NoScreen {
    fn is_watched(&self) -> bool {
        false
    }

    fn colors(&self) -> Colors {
        Colors {
            output: false,
            errors: false,
        }
    }

    fn show(&self, _text: &str) {}
}
