//! A drawing as lines for a terminal.

use crate::drawing::Drawing;
use crate::layout::{SideBySide, has_marks, mark_count, rows_of};
use crate::mark::Mark;
use crate::summary::{push_messages, push_totals};
use std::alloc::{AllocError, Global};

/// The word before the number of the first round.
const ROUND: &str = "round ";

/// A drawing as text: a line of totals, and below it the rounds from top to bottom and the members from left to right. `o` is a
/// member that sends or receives, and the head of an arrow is at its receiver; `+` is a combination, `=` a copy within a
/// member's buffer, each with its number if a member makes several of them. The cost grows with the square of the messages of a
/// round. The only error is refused memory.
pub fn text_lines(alloc: Global, drawing: &Drawing) -> Result<String, AllocError> {
    let mut form = TextDrawing {
        alloc,
        drawing,
        step: step_of(drawing.n()),
        digits: digits(drawing.totals().rounds),
        out: String::new(alloc),
    };
    form.write_head()?;
    for round in 0..drawing.totals().rounds {
        form.write_round(round)?;
    }
    Ok(form.out)
}

/// The number of characters from a member's column to the next one.
fn step_of(n: u8) -> usize {
    match n {
        0..=10 => 7,
        11..=16 => 5,
        _ => 4,
    }
}

fn digits(count: usize) -> usize {
    match count.saturating_sub(1).checked_ilog10() {
        Some(log) => (log as usize).saturating_add(1),
        None => 1,
    }
}

/// The lines so far, and what they are made from.
#[derive(Drop)]
struct TextDrawing<'d> {
    alloc: Global,
    drawing: &'d Drawing,
    /// The number of characters from a member's column to the next one.
    step: usize,
    /// The number of digits of the last round's number.
    digits: usize,
    out: String,
}

impl<'d> TextDrawing<'d> {
    /// Writes the totals, and the members' numbers.
    fn write_head(&mut self) -> Result<(), AllocError> {
        let drawing = self.drawing;
        push_totals(&mut self.out, drawing)?;
        self.out.push('\n')?;
        let width = self.margin();
        write!(self.out, "{:<width$}", "members")?;
        for member in 0..drawing.n() {
            let width = if member.saturating_add(1) < drawing.n() {
                self.step
            } else {
                0
            };
            write!(self.out, "{member:<width$}")?;
        }
        self.out.push('\n')?;
        Ok(())
    }

    /// The number of characters before the first member's column.
    fn margin(&self) -> usize {
        ROUND.len().saturating_add(self.digits).saturating_add(2)
    }

    /// Writes the messages of a round, and then what its members do by themselves.
    fn write_round(&mut self, round: usize) -> Result<(), AllocError> {
        let drawing = self.drawing;
        let rows = rows_of(self.alloc, drawing.arrows(), round)?;
        let mut is_begun = false;
        for row in &rows {
            self.begin_line(round, is_begun)?;
            self.write_row(row)?;
            if !is_begun {
                self.out.push_str("   ")?;
                push_messages(&mut self.out, drawing.arrows(), round)?;
            }
            is_begun = true;
            self.out.push('\n')?;
        }
        is_begun = self.write_marks('=', drawing.copies(), round, is_begun)?;
        is_begun = self.write_marks('+', drawing.combinations(), round, is_begun)?;
        if !is_begun {
            self.begin_line(round, is_begun)?;
            self.write_row(&SideBySide {
                lines: Vec::new(self.alloc),
            })?;
            self.out.push('\n')?;
        }
        Ok(())
    }

    /// Writes the number of a round before the first of its lines, and blanks before the others.
    fn begin_line(&mut self, round: usize, is_begun: bool) -> Result<(), AllocError> {
        let margin = self.margin();
        if is_begun {
            return write!(self.out, "{:margin$}", "");
        }
        let word = if round == 0 { ROUND } else { "      " };
        let width = self.digits;
        write!(self.out, "{word}{round:>width$}  ")
    }

    /// Writes the lines between members, and the columns of the members that they leave alone.
    fn write_row(&mut self, row: &SideBySide) -> Result<(), AllocError> {
        let n = self.drawing.n();
        for member in 0..n {
            let is_crossed = row.line_behind(member).is_some();
            self.out.push(match (row.touches(member), is_crossed) {
                (true, _) => 'o',
                (false, true) => '-',
                (false, false) => '|',
            })?;
            if member.saturating_add(1) < n {
                self.write_space(row, member)?;
            }
        }
        Ok(())
    }

    /// Writes what lies between a member's column and the next one.
    fn write_space(&mut self, row: &SideBySide, member: u8) -> Result<(), AllocError> {
        let width = self.step.saturating_sub(3);
        let Some(line) = row.line_behind(member) else {
            return write!(self.out, "{:width$}  ", "");
        };
        let begins = line.reaches_low && line.low == member;
        let ends = line.reaches_high && line.high == member.saturating_add(1);
        self.out.push(if begins { '<' } else { '-' })?;
        write!(self.out, "{:-<width$}", "")?;
        self.out.push(if ends { '>' } else { '-' })?;
        Ok(())
    }

    /// Writes the marks of a round, if it has some. Returns whether the round has a line now.
    fn write_marks(
        &mut self,
        sign: char,
        marks: &[Mark],
        round: usize,
        is_begun: bool,
    ) -> Result<bool, AllocError> {
        if !has_marks(marks, round) {
            return Ok(is_begun);
        }
        self.begin_line(round, is_begun)?;
        for member in 0..self.drawing.n() {
            self.write_mark(sign, mark_count(marks, round, member), member)?;
        }
        self.out.push('\n')?;
        Ok(true)
    }

    /// Writes a member's mark in its column, with its number if there are several.
    fn write_mark(&mut self, sign: char, count: usize, member: u8) -> Result<(), AllocError> {
        let is_last = member.saturating_add(1) >= self.drawing.n();
        let width = if is_last {
            0
        } else {
            self.step.saturating_sub(1)
        };
        match count {
            0 => write!(self.out, "|{:width$}", ""),
            1 => write!(self.out, "{sign}{:width$}", ""),
            _ => write!(self.out, "{sign}{count:<width$}"),
        }
    }
}
