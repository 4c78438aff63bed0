// Marks as they are printed in one line.
ghost use Rattle.std.specs.Prelude.{Some};
ghost use Rattle.keeper.specs.Texts.{mark_text, marks_text, standing_text};

use super::marks::Marks;
use atoms::{Interpretation, State, has};
use std::fmt;

// A name and its state.
#[derive(Clone, Copy)]
struct Mark<'a> {
    name: &'a str,
    state: State,
}

impl fmt::Display for Mark<'_> {
    ghost output = { λ mark. Some (mark_text mark.state mark.name.now) };

    fn fmt<W: fmt::Write>(&self, f: &mut fmt::Formatter<W>) -> fmt::Result {
        let name = self.name;
        let state = self.state;
        write!(f, " {name} {state};")
    }
}

impl fmt::Display for Marks<'_> {
    ghost output = { λ m. Some (marks_text m.bounds m.names.now) };

    fn fmt<W: fmt::Write>(&self, f: &mut fmt::Formatter<W>) -> fmt::Result {
        write!(f, "marks:")?;
        for (i, name) in self.names.iter().enumerate() {
            let mark = Mark {
                name,
                state: self.bounds.state(i as u8),
            };
            write!(f, "{mark}")?;
        }
        Ok(())
    }
}

// The marks that are on in an interpretation.
#[derive(Clone, Copy)]
pub struct Standing<'a> {
    pub marks: Marks<'a>,
    pub on: Interpretation,
}

impl fmt::Display for Standing<'_> {
    ghost output = { λ s. Some (standing_text s.on s.marks.names.now) };

    fn fmt<W: fmt::Write>(&self, f: &mut fmt::Formatter<W>) -> fmt::Result {
        write!(f, "standing")?;
        for (i, name) in self.marks.names.iter().enumerate() {
            if has(self.on, i as u8) {
                write!(f, " {name}")?;
            }
        }
        Ok(())
    }
}
