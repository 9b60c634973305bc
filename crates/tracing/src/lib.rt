// Strokes as parts of a picture: those that join as one path, whole or dashed, dots as discs, a ring where the first one starts, and a cross where the pen stood
// when a byte was refused. All lengths are plotter units.
#![tactic(auto)]

use clip::Point;
use drive::ends_equal;
use hpgl::Stroke;
use output::Text;
use std::fmt;
use std::fmt::Write;

// A path that is open: its pen, and its end.
#[derive(Clone, Copy)]
pub struct Path {
    pub pen: u8,
    pub end: Point,
}

// How far the picture is: whether a stroke was put, whether lines are dashed, and the path that is open.
#[derive(Clone, Copy)]
pub struct Hand {
    pub begun: bool,
    pub dashed: bool,
    pub open: Option<Path>,
}

impl Hand {
    // Nothing is put yet.
    pub fn new() -> Hand {
        Hand {
            begun: false,
            dashed: false,
            open: None,
        }
    }

    // Ends the path that is open.
    pub fn close(&mut self, out: &mut Text<'_>) -> fmt::Result {
        match self.open.take() {
            Some(_) => writeln!(out, "\"/>"),
            None => Ok(()),
        }
    }

    // From here on lines are dashed, or whole: no path goes on from one to the other.
    fn dash(&mut self, out: &mut Text<'_>, dashed: bool) -> fmt::Result {
        if self.dashed == dashed {
            return Ok(());
        }
        self.dashed = dashed;
        self.close(out)
    }

    // Whether a stroke goes on where the path that is open ends.
    fn joins(&self, s: Stroke) -> bool {
        match self.open {
            Some(path) => path.pen == s.pen && path.end.x == s.x0 && path.end.y == s.y0,
            None => false,
        }
    }

    // A line of the picture, of the path that is open or of a new one.
    fn line(&mut self, out: &mut Text<'_>, s: Stroke) -> fmt::Result {
        if self.joins(s) {
            write!(out, " ")?;
        } else {
            self.close(out)?;
            let dashes = if self.dashed { " a" } else { "" };
            write!(
                out,
                "<path class=\"p{}{dashes}\" d=\"M{} {}L",
                s.pen, s.x0, s.y0
            )?;
        }
        self.begun = true;
        self.open = Some(Path {
            pen: s.pen,
            end: Point { x: s.x1, y: s.y1 },
        });
        write!(out, "{} {}", s.x1, s.y1)
    }

    // A stroke of no length: a line of it would be too small to be found.
    fn dot(&mut self, out: &mut Text<'_>, s: Stroke, radius: u64) -> fmt::Result {
        self.close(out)?;
        self.begun = true;
        writeln!(
            out,
            "<circle class=\"d p{}\" cx=\"{}\" cy=\"{}\" r=\"{radius}\"/>",
            s.pen, s.x0, s.y0
        )
    }

    // A ring where the first stroke starts.
    fn start(&mut self, out: &mut Text<'_>, s: Stroke, radius: u64) -> fmt::Result {
        if self.begun {
            return Ok(());
        }
        self.begun = true;
        let ring = radius.saturating_mul(2);
        writeln!(
            out,
            "<circle class=\"s\" cx=\"{}\" cy=\"{}\" r=\"{ring}\"/>",
            s.x0, s.y0
        )
    }

    // These strokes, dashed or whole.
    pub fn put(
        &mut self,
        out: &mut Text<'_>,
        strokes: &[Stroke],
        dashed: bool,
        radius: u64,
    ) -> fmt::Result {
        self.dash(out, dashed)?;
        for s in strokes {
            self.start(out, *s, radius)?;
            if ends_equal(*s) {
                self.dot(out, *s, radius)?;
            } else {
                self.line(out, *s)?;
            }
        }
        Ok(())
    }

    // A cross with arms of this length.
    pub fn cross(&mut self, out: &mut Text<'_>, at: Point, arm: u64) -> fmt::Result {
        self.close(out)?;
        let Point { x, y } = at;
        let whole = arm.saturating_mul(2);
        write!(out, "<path class=\"x\" d=\"M{x} {y}")?;
        writeln!(
            out,
            "m-{arm}-{arm}l{whole} {whole}m0-{whole}l-{whole} {whole}\"/>"
        )
    }
}
