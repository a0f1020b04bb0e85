//! How expressions are written.

use crate::points::push_point;
use lx_class::{ClassSet, Range};
use lx_regex::Expr;
use std::alloc::{AllocError, Global};

/// The text of an expression. Sequences in sequences and alternatives in alternatives are written flat, and neighbours that are
/// classes of one point make one string.
pub fn expression(alloc: Global, expr: &Expr) -> Result<String, AllocError> {
    let mut writer = Writer {
        text: String::new(alloc),
        is_spaced: false,
        is_string: false,
    };
    writer.push(expr, false)?;
    writer.end_string()?;
    Ok(writer.text)
}

/// A text that is written.
#[derive(Drop)]
struct Writer {
    text: String,
    /// Whether a member stands right before, and a blank is wanted before the next one.
    is_spaced: bool,
    /// Whether the text ends in a string that is not closed.
    is_string: bool,
}

impl Writer {
    /// Ends the string in which the text ends.
    fn end_string(&mut self) -> Result<(), AllocError> {
        if self.is_string {
            self.text.push('"')?;
            self.is_string = false;
            self.is_spaced = true;
        }
        Ok(())
    }

    /// Begins a member of a sequence.
    fn begin_member(&mut self) -> Result<(), AllocError> {
        self.end_string()?;
        if self.is_spaced {
            self.text.push(' ')?;
        }
        self.is_spaced = true;
        Ok(())
    }

    /// Writes a member of a sequence.
    fn push_member(&mut self, member: &str) -> Result<(), AllocError> {
        self.begin_member()?;
        self.text.push_str(member)
    }

    /// Opens parentheses.
    fn open(&mut self) -> Result<(), AllocError> {
        self.push_member("(")?;
        self.is_spaced = false;
        Ok(())
    }

    /// Closes parentheses.
    fn close(&mut self) -> Result<(), AllocError> {
        self.end_string()?;
        self.is_spaced = true;
        self.text.push(')')
    }

    /// Writes a class of one point.
    fn push_single(&mut self, point: u32) -> Result<(), AllocError> {
        if !self.is_string {
            self.push_member("\"")?;
            self.is_string = true;
        }
        push_point(&mut self.text, point, b"\"\\")
    }

    /// Writes a class.
    fn push_class(&mut self, set: &ClassSet) -> Result<(), AllocError> {
        if let Some(point) = single_point(set) {
            return self.push_single(point);
        }
        self.push_member("[")?;
        push_ranges(&mut self.text, set.ranges())?;
        self.text.push(']')
    }

    /// Writes how often what stands before is repeated.
    fn push_bounds(&mut self, low: u32, high: Option<u32>) -> Result<(), AllocError> {
        self.end_string()?;
        match (low, high) {
            (0, None) => self.text.push('*'),
            (1, None) => self.text.push('+'),
            (0, Some(1)) => self.text.push('?'),
            (low, None) => write!(self.text, "{{{low},}}"),
            (low, Some(high)) if low == high => write!(self.text, "{{{low}}}"),
            (low, Some(high)) => write!(self.text, "{{{low},{high}}}"),
        }
    }

    /// Writes a tag, with its mark and its number.
    fn push_tag(&mut self, mark: char, number: u32) -> Result<(), AllocError> {
        self.begin_member()?;
        write!(self.text, "{mark}{number}")
    }

    /// Opens the parentheses of a group.
    fn open_group(&mut self, number: u32) -> Result<(), AllocError> {
        self.open()?;
        write!(self.text, "{number}: ")
    }

    /// Begins what is repeated, which may stand in parentheses.
    fn begin_repeated(&mut self, is_enclosed: bool) -> Result<(), AllocError> {
        self.end_string()?;
        if is_enclosed {
            self.open()?;
        }
        Ok(())
    }

    /// Ends what is repeated so often, which may stand in parentheses.
    fn end_repeated(
        &mut self,
        is_enclosed: bool,
        low: u32,
        high: Option<u32>,
    ) -> Result<(), AllocError> {
        if is_enclosed {
            self.close()?;
        }
        self.push_bounds(low, high)
    }

    /// Ends an alternative before the next one.
    fn end_alternative(&mut self) -> Result<(), AllocError> {
        self.end_string()?;
        self.is_spaced = false;
        self.text.push_str(" | ")
    }

    /// Writes alternatives.
    #[cycle(push)]
    fn push_alternatives(&mut self, members: &[Expr]) -> Result<(), AllocError> {
        for (place, member) in members.iter().enumerate() {
            if place != 0 {
                self.end_alternative()?;
            }
            self.push(member, false)?;
        }
        Ok(())
    }

    /// Writes the members of a sequence.
    #[cycle(push)]
    fn push_sequence(&mut self, members: &[Expr]) -> Result<(), AllocError> {
        for member in members {
            self.push(member, true)?;
        }
        Ok(())
    }

    /// Writes an expression, which may be a member of a sequence: there alternatives stand in parentheses.
    #[cycle(push)]
    fn push(&mut self, expr: &Expr, is_member: bool) -> Result<(), AllocError> {
        match expr {
            Expr::Empty => self.push_member("\"\""),
            Expr::Class(set) => self.push_class(set),
            Expr::AnyUnit => self.push_member("any"),
            Expr::STag(number) => self.push_tag('@', *number),
            Expr::MTag(number) => self.push_tag('#', *number),
            Expr::Cat(members) => self.push_sequence(members),
            Expr::Alt(members) if is_member => {
                self.open()?;
                self.push_alternatives(members)?;
                self.close()
            }
            Expr::Alt(members) => self.push_alternatives(members),
            Expr::Rep(body, low, high) => {
                let is_enclosed = is_row(body);
                self.begin_repeated(is_enclosed)?;
                self.push(body, !is_enclosed)?;
                self.end_repeated(is_enclosed, *low, *high)
            }
            Expr::Group(number, body) => {
                self.open_group(*number)?;
                self.push(body, false)?;
                self.close()
            }
        }
    }
}

/// Whether the expression is a sequence that is written as more than one string.
fn is_row(expr: &Expr) -> bool {
    matches!(expr, Expr::Cat(_)) && !is_string(expr)
}

/// The point of a class that has one.
fn single_point(set: &ClassSet) -> Option<u32> {
    match set.ranges() {
        [Range { lo, hi }] if lo == hi => Some(*lo),
        _ => None,
    }
}

/// Whether the expression is written as one string.
#[cycle(string)]
fn is_string(expr: &Expr) -> bool {
    match expr {
        Expr::Class(set) => single_point(set).is_some(),
        Expr::Cat(members) => are_strings(members),
        _ => false,
    }
}

/// Whether each of some expressions is written as one string.
#[cycle(string)]
fn are_strings(members: &[Expr]) -> bool {
    for member in members {
        if !is_string(member) {
            return false;
        }
    }
    true
}

/// Writes the ranges of a class.
fn push_ranges(text: &mut String, ranges: &[Range]) -> Result<(), AllocError> {
    for range in ranges {
        push_point(text, range.lo, b"]\\-^")?;
        if range.lo != range.hi {
            text.push('-')?;
            push_point(text, range.hi, b"]\\-^")?;
        }
    }
    Ok(())
}
