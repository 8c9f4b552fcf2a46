//! The page of a diagnostic: lines of a text in a frame, with marks below the words that are meant.

use crate::excerpt::Excerpt;
use std::alloc::{AllocError, Global};

/// How a part of a line is painted where colours are wanted.
#[derive(Clone, Copy)]
pub enum Paint {
    /// What is wrong.
    Fault,
    /// What else belongs to the fault.
    Other,
    /// The frame: arrows, bars and numbers of lines.
    Frame,
    Help,
}

impl Paint {
    /// The control sequence of a terminal that begins it.
    fn code(self) -> &'static str {
        match self {
            Paint::Fault => "\x1b[1;31m",
            Paint::Other => "\x1b[1;33m",
            Paint::Frame => "\x1b[1;34m",
            Paint::Help => "\x1b[1;36m",
        }
    }
}

/// The control sequence that ends what is painted.
const PLAIN: &str = "\x1b[0m";

/// The lines so far, and how they are laid out.
#[derive(Drop)]
pub struct Page<'e> {
    /// The text's name.
    pub name: &'e str,
    is_colored: bool,
    /// The columns of the numbers of lines.
    width: usize,
    pub out: String,
}

impl<'e> Page<'e> {
    /// An empty page on the text that has this name. `last_line` is the greatest number of a line that is shown.
    pub fn new(alloc: Global, name: &'e str, is_colored: bool, last_line: usize) -> Page<'e> {
        Page {
            name,
            is_colored,
            width: digits(last_line),
            out: String::new(alloc),
        }
    }

    /// Shows a line, and marks below it. A label ends the marks.
    pub fn marked_line(
        &mut self,
        line: u32,
        excerpt: &Excerpt,
        paint: Paint,
        mark: char,
    ) -> Result<(), AllocError> {
        let width = self.width;
        self.begin(Paint::Frame)?;
        write!(self.out, "{line:>width$} |")?;
        self.end()?;
        writeln!(self.out, " {}", excerpt.text.as_str())?;
        self.frame(" | ")?;
        self.blank(excerpt.indent)?;
        self.begin(paint)?;
        for _ in 0..excerpt.marks {
            self.out.push(mark)?;
        }
        self.end()
    }

    /// Puts a label after marks.
    pub fn label(&mut self, paint: Paint, label: &str) -> Result<(), AllocError> {
        self.out.push(' ')?;
        self.painted(paint, label)?;
        self.out.push('\n')?;
        Ok(())
    }

    /// A sentence on the lines above.
    pub fn remark(&mut self, remark: &str) -> Result<(), AllocError> {
        self.frame(" = ")?;
        writeln!(self.out, "{remark}")
    }

    /// A sentence on the lines above, after a word that says what kind it is.
    pub fn note(&mut self, word: &str, note: &str) -> Result<(), AllocError> {
        self.frame(" = ")?;
        writeln!(self.out, "{word}: {note}")
    }

    /// A change that is proposed.
    pub fn help(&mut self, help: &str) -> Result<(), AllocError> {
        self.frame(" = ")?;
        self.painted(Paint::Help, "help")?;
        writeln!(self.out, ": {help}")
    }

    /// Names a line of the text.
    pub fn arrow_to(&mut self, line: u32) -> Result<(), AllocError> {
        self.arrow()?;
        writeln!(self.out, "{}:{line}", self.name)
    }

    /// Names a column of a line of the text, both counted from 1.
    pub fn arrow_into(&mut self, line: u32, column: usize) -> Result<(), AllocError> {
        self.arrow()?;
        writeln!(self.out, "{}:{line}:{column}", self.name)
    }

    /// Names the place of a rank: the line in which it waits, or its end.
    pub fn arrow_to_rank(&mut self, line: Option<u32>, rank: u8) -> Result<(), AllocError> {
        self.arrow()?;
        match line {
            Some(line) => writeln!(self.out, "{}:{line}: rank {rank}", self.name),
            None => writeln!(self.out, "{}:end: rank {rank}", self.name),
        }
    }

    /// Begins a line that names a place in the text.
    fn arrow(&mut self) -> Result<(), AllocError> {
        self.blank(self.width)?;
        self.painted(Paint::Frame, "--> ")
    }

    /// Shows that lines between two shown ones are left out.
    pub fn gap(&mut self) -> Result<(), AllocError> {
        self.painted(Paint::Frame, "...")?;
        self.out.push('\n')?;
        Ok(())
    }

    pub fn empty_line(&mut self) -> Result<(), AllocError> {
        self.frame(" |")?;
        self.out.push('\n')?;
        Ok(())
    }

    /// Begins a line of the frame, without a line of the text.
    fn frame(&mut self, frame: &str) -> Result<(), AllocError> {
        self.blank(self.width)?;
        self.painted(Paint::Frame, frame)
    }

    pub fn painted(&mut self, paint: Paint, text: &str) -> Result<(), AllocError> {
        self.begin(paint)?;
        self.out.push_str(text)?;
        self.end()
    }

    /// Begins what is painted so, up to `end`.
    pub fn begin(&mut self, paint: Paint) -> Result<(), AllocError> {
        if self.is_colored {
            self.out.push_str(paint.code())?;
        }
        Ok(())
    }

    /// Ends what is painted.
    pub fn end(&mut self) -> Result<(), AllocError> {
        if self.is_colored {
            self.out.push_str(PLAIN)?;
        }
        Ok(())
    }

    fn blank(&mut self, columns: usize) -> Result<(), AllocError> {
        for _ in 0..columns {
            self.out.push(' ')?;
        }
        Ok(())
    }
}

/// How many decimal digits the number has.
fn digits(number: usize) -> usize {
    match number.checked_ilog10() {
        Some(log) => (log as usize).saturating_add(1),
        None => 1,
    }
}
