//! A drawing as a vector picture.

use crate::drawing::Drawing;
use crate::geometry::{MemberColumns, text_width};
use crate::layout::{SideBySide, has_marks, mark_count, rows_of};
use crate::line::Link;
use crate::mark::Mark;
use crate::summary::{push_counts, push_messages, push_title};
use std::alloc::{AllocError, Global};

/// The room of a line of arrows or marks.
const LINE: u32 = 24;

/// The room above the first round.
const TOP: u32 = 64;

/// The room above the first line of a round, and below its last one.
const PAD: u32 = 6;

/// The room at the left and at the right of a text.
const MARGIN: u32 = 16;

/// The size of the letters at arrows.
const SMALL: u32 = 10;

/// The size of the letters beside a round's arrows.
const ASIDE: u32 = 11;

/// The size of the letters of the totals.
const MIDDLE: u32 = 12;

/// The size of the letters of the title.
const LARGE: u32 = 15;

/// The fonts, and how letters and lines look.
const STYLE: &str = "\
<style>
text { font-family: Helvetica, Arial, 'Liberation Sans', sans-serif; fill: #000; }
.title { font-size: 15px; font-weight: bold; }
.member { font-size: 13px; font-weight: bold; text-anchor: middle; }
.round { font-size: 12px; }
.aside { font-size: 11px; }
.label { font-size: 10px; text-anchor: middle; stroke-width: 3; paint-order: stroke; }
.count { font-size: 10px; }
.total { font-size: 12px; }
.life { stroke: #aaa; stroke-width: 1; }
.arrow { stroke: #000; stroke-width: 1.4; }
.sign { fill: #fff; stroke: #000; stroke-width: 1.3; }
</style>
";

/// A drawing as SVG, black on white: a title, a column for each member, a band for each round, and the totals below. Messages
/// are arrows, with their bytes if these fit; a combination is a plus in a circle, a copy within a member's buffer a square,
/// each with its number if a member makes several of them. The cost grows with the square of the messages of a round. The only
/// error is refused memory.
pub fn svg_picture(alloc: Global, drawing: &Drawing) -> Result<String, AllocError> {
    let mut form = SvgForm::new(alloc, drawing)?;
    for round in 0..drawing.totals().rounds {
        form.write_round(round)?;
    }
    form.finished()
}

/// The parts of a picture so far.
#[derive(Drop)]
struct SvgForm<'d> {
    alloc: Global,
    drawing: &'d Drawing,
    columns: MemberColumns,
    /// The collective and its members.
    title: String,
    /// The text below the rounds.
    totals: String,
    width: u32,
    /// Where the next part begins.
    y: u32,
    /// The arrows and marks of the rounds.
    body: String,
    /// What lies underneath the arrows and marks.
    lives: String,
}

impl<'d> SvgForm<'d> {
    /// A picture without rounds so far.
    fn new(alloc: Global, drawing: &'d Drawing) -> Result<SvgForm<'d>, AllocError> {
        let columns = MemberColumns::of(drawing.n());
        let mut title = String::new(alloc);
        push_title(&mut title, drawing)?;
        let mut totals = String::new(alloc);
        push_counts(&mut totals, drawing)?;
        let width = columns
            .aside()
            .max(text_width(title.len(), LARGE).saturating_add(2 * MARGIN))
            .max(text_width(totals.len(), MIDDLE).saturating_add(2 * MARGIN));
        Ok(SvgForm {
            alloc,
            drawing,
            columns,
            title,
            totals,
            width,
            y: TOP,
            body: String::new(alloc),
            lives: String::new(alloc),
        })
    }

    /// Draws a band with the messages of a round, and below them what its members do by themselves.
    fn write_round(&mut self, round: usize) -> Result<(), AllocError> {
        let drawing = self.drawing;
        let shade = if round % 2 == 0 { "#f1f1f1" } else { "#ffffff" };
        let begin = self.y;
        self.y = self.y.saturating_add(PAD);
        let first = self.y.saturating_add(LINE / 2);
        let rows = rows_of(self.alloc, drawing.arrows(), round)?;
        for row in &rows {
            self.write_row(row, shade)?;
        }
        if !rows.is_empty() {
            self.write_aside(round, first)?;
        }
        self.write_signs(Sign::Copy, drawing.copies(), round)?;
        self.write_signs(Sign::Combination, drawing.combinations(), round)?;
        if self.y == begin.saturating_add(PAD) {
            self.y = self.y.saturating_add(LINE);
        }
        self.y = self.y.saturating_add(PAD);
        self.write_band(round, begin, shade)
    }

    /// Draws the ground of a round, and its number.
    fn write_band(&mut self, round: usize, begin: u32, shade: &str) -> Result<(), AllocError> {
        let height = self.y.saturating_sub(begin);
        writeln!(
            self.lives,
            "<rect y=\"{begin}\" width=\"100%\" height=\"{height}\" fill=\"{shade}\"/>"
        )?;
        let y = begin
            .saturating_add(PAD)
            .saturating_add(LINE / 2)
            .saturating_add(4);
        writeln!(
            self.body,
            "<text class=\"round\" x=\"16\" y=\"{y}\">round {round}</text>"
        )
    }

    /// Writes which messages a round has, beside its first arrows. The picture is made wide enough for this.
    fn write_aside(&mut self, round: usize, y: u32) -> Result<(), AllocError> {
        let mut text = String::new(self.alloc);
        push_messages(&mut text, self.drawing.arrows(), round)?;
        let x = self.columns.aside();
        let y = y.saturating_add(4);
        let end = x.saturating_add(text_width(text.len(), ASIDE));
        self.width = self.width.max(end.saturating_add(MARGIN));
        writeln!(
            self.body,
            "<text class=\"aside\" x=\"{x}\" y=\"{y}\">{}</text>",
            text.as_str()
        )
    }

    fn write_row(&mut self, row: &SideBySide, shade: &str) -> Result<(), AllocError> {
        for line in &row.lines {
            self.write_arrow(line)?;
            self.write_label(line, shade)?;
        }
        self.y = self.y.saturating_add(LINE);
        Ok(())
    }

    /// Draws an arrow from member to member, with a head at each receiver, and a dot at a member that only sends.
    fn write_arrow(&mut self, line: &Link) -> Result<(), AllocError> {
        let low = self.columns.x(line.low);
        let high = self.columns.x(line.high);
        let y = self.y.saturating_add(LINE / 2).saturating_add(3);
        let begin = if line.reaches_low {
            low.saturating_add(6)
        } else {
            low
        };
        let end = if line.reaches_high {
            high.saturating_sub(6)
        } else {
            high
        };
        writeln!(
            self.body,
            "<line class=\"arrow\" x1=\"{begin}\" y1=\"{y}\" x2=\"{end}\" y2=\"{y}\"/>"
        )?;
        if line.reaches_low {
            let low = low.saturating_add(1);
            writeln!(self.body, "<path d=\"M{low} {y}l9 -4v8z\"/>")?;
        } else {
            writeln!(self.body, "<circle cx=\"{low}\" cy=\"{y}\" r=\"2.6\"/>")?;
        }
        if line.reaches_high {
            let high = high.saturating_sub(1);
            writeln!(self.body, "<path d=\"M{high} {y}l-9 -4v8z\"/>")
        } else {
            writeln!(self.body, "<circle cx=\"{high}\" cy=\"{y}\" r=\"2.6\"/>")
        }
    }

    /// Writes the bytes of a message above its arrow: in the middlemost space between columns if they fit there, else over the
    /// whole arrow if they fit, else not at all.
    fn write_label(&mut self, line: &Link, shade: &str) -> Result<(), AllocError> {
        let text = format!(in self.alloc; "{} B", line.len)?;
        let low = self.columns.x(line.low);
        let high = self.columns.x(line.high);
        let width = text_width(text.len(), SMALL).saturating_add(16);
        let x = if width <= self.columns.step {
            self.columns.middle(line)
        } else if width <= high.saturating_sub(low) {
            low.saturating_add(high.saturating_sub(low) / 2)
        } else {
            return Ok(());
        };
        let y = self.y.saturating_add(LINE / 2).saturating_sub(1);
        writeln!(
            self.body,
            "<text class=\"label\" x=\"{x}\" y=\"{y}\" stroke=\"{shade}\">{}</text>",
            text.as_str()
        )
    }

    /// Draws the marks of a round, if it has some.
    fn write_signs(&mut self, sign: Sign, marks: &[Mark], round: usize) -> Result<(), AllocError> {
        if !has_marks(marks, round) {
            return Ok(());
        }
        let y = self.y.saturating_add(LINE / 2);
        for member in 0..self.columns.n {
            let count = mark_count(marks, round, member);
            if count > 0 {
                let x = self.columns.x(member);
                write_sign(&mut self.body, sign, x, y)?;
                write_sign_count(&mut self.body, count, x, y)?;
            }
        }
        self.y = self.y.saturating_add(LINE);
        Ok(())
    }

    /// The whole picture.
    fn finished(&self) -> Result<String, AllocError> {
        let width = self.width;
        let title = self.title.as_str();
        let has_signs = !self.drawing.combinations().is_empty()
            || !self.drawing.copies().is_empty();
        let height = self.y.saturating_add(if has_signs { 64 } else { 40 });
        let mut out = String::new(self.alloc);
        writeln!(
            out,
            "<svg xmlns=\"http://www.w3.org/2000/svg\" width=\"{width}\" height=\"{height}\" viewBox=\"0 0 {width} {height}\">"
        )?;
        writeln!(out, "<title>{title}</title>")?;
        out.push_str(STYLE)?;
        writeln!(
            out,
            "<rect width=\"{width}\" height=\"{height}\" fill=\"#fff\"/>"
        )?;
        writeln!(
            out,
            "<text class=\"title\" x=\"16\" y=\"26\">{title}</text>"
        )?;
        out.push_str(self.lives.as_str())?;
        self.write_columns(&mut out)?;
        out.push_str(self.body.as_str())?;
        self.write_legend(&mut out)?;
        out.push_str("</svg>\n")?;
        Ok(out)
    }

    /// Draws the members' numbers and columns.
    fn write_columns(&self, out: &mut String) -> Result<(), AllocError> {
        out.push_str("<text class=\"round\" x=\"16\" y=\"54\">member</text>\n")?;
        for member in 0..self.columns.n {
            let x = self.columns.x(member);
            let end = self.y;
            writeln!(
                out,
                "<text class=\"member\" x=\"{x}\" y=\"54\">{member}</text>"
            )?;
            writeln!(
                out,
                "<line class=\"life\" x1=\"{x}\" y1=\"{TOP}\" x2=\"{x}\" y2=\"{end}\"/>"
            )?;
        }
        Ok(())
    }

    /// Writes the totals and the meaning of the signs.
    fn write_legend(&self, out: &mut String) -> Result<(), AllocError> {
        let totals = self.totals.as_str();
        let y = self.y.saturating_add(24);
        writeln!(
            out,
            "<text class=\"total\" x=\"16\" y=\"{y}\">{totals}</text>"
        )?;
        let y = y.saturating_add(22);
        let mut x: u32 = 24;
        if !self.drawing.combinations().is_empty() {
            x = write_meaning(out, Sign::Combination, "combination", x, y)?;
        }
        if !self.drawing.copies().is_empty() {
            write_meaning(out, Sign::Copy, "copy", x, y)?;
        }
        Ok(())
    }
}

/// What a member does by itself.
#[derive(Clone, Copy, Debug)]
enum Sign {
    Combination,
    Copy,
}

fn write_sign(out: &mut String, sign: Sign, x: u32, y: u32) -> Result<(), AllocError> {
    match sign {
        Sign::Combination => {
            writeln!(
                out,
                "<circle class=\"sign\" cx=\"{x}\" cy=\"{y}\" r=\"7\"/><path class=\"sign\" d=\"M{x} {y}m-4 0h8m-4 -4v8\"/>"
            )
        }
        Sign::Copy => writeln!(
            out,
            "<path class=\"sign\" d=\"M{x} {y}m-5 -5h10v10h-10z\"/>"
        ),
    }
}

/// Writes how many times the sign is meant, unless it is once.
fn write_sign_count(out: &mut String, count: usize, x: u32, y: u32) -> Result<(), AllocError> {
    if count == 1 {
        return Ok(());
    }
    let x = x.saturating_add(10);
    let y = y.saturating_add(4);
    writeln!(
        out,
        "<text class=\"count\" x=\"{x}\" y=\"{y}\">{count}</text>"
    )
}

/// Draws a sign with its meaning. Returns where the next one begins.
fn write_meaning(
    out: &mut String,
    sign: Sign,
    meaning: &str,
    x: u32,
    y: u32,
) -> Result<u32, AllocError> {
    write_sign(out, sign, x, y)?;
    let text = x.saturating_add(14);
    let base = y.saturating_add(4);
    writeln!(
        out,
        "<text class=\"total\" x=\"{text}\" y=\"{base}\">{meaning}</text>"
    )?;
    Ok(
        text.saturating_add(text_width(meaning.len(), MIDDLE))
            .saturating_add(24),
    )
}
