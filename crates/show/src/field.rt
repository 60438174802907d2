// A field: its name, its value and, where a message is explained, what the value means.
use crate::style::{Depth, Style};
use print::Out;

#[derive(Clone, Copy)]
pub(crate) struct Field {
    pub depth: Depth,
    pub name: &'static str,
    // What 0, 1 and so on mean, the last for all that are larger. There is none where the number says it all.
    pub means: &'static [&'static str],
}

// Meanings that several kinds share.
pub(crate) const CANCELS: &[&str] = &["fields follow", "ends what is held"];

pub(crate) const PERSISTS: &[&str] = &["this picture only", "until the next message or sequence"];

pub(crate) const PROJECTED: &[&str] = &["relative projected picture sample units"];

pub(crate) const PACKED: &[&str] = &["relative packed picture sample units"];

// The numbers of a record, or of a part of one, in the order of its row; and how they are shown.
#[derive(Clone, Copy)]
pub(crate) struct Row<'a> {
    pub style: Style,
    pub numbers: &'a [u64],
}

impl<'a> Row<'a> {
    // The number at a place; 0 past the row's end.
    pub fn at(self, i: usize) -> u64 {
        self.numbers.get(i).copied().unwrap_or(0)
    }

    // What stands from a place on.
    pub fn from(self, place: usize) -> Row<'a> {
        Row {
            style: self.style,
            numbers: self.numbers.get(place..).unwrap_or(&[]),
        }
    }

    // How deep a field may lie, by the first of them, which cancels, and the one at a place, which says whether the deeper ones are there. The
    // extension's length stands before them all.
    pub fn uncancelled(self, flag: usize) -> Depth {
        self.style.depth(self.at(1) == 0, self.at(flag) == 1)
    }

    // The numbers by the fields that they are, but for those that lie too deep.
    pub fn fields(self, out: &mut Out, depth: Depth, fields: &[Field]) {
        self.shown(out, depth, None, fields);
    }

    // The numbers by fields that are all there and have an index.
    pub fn indexed(self, out: &mut Out, index: u64, fields: &[Field]) {
        self.shown(out, Depth::Inner, Some(index), fields);
    }

    fn shown(self, out: &mut Out, depth: Depth, index: Option<u64>, fields: &[Field]) {
        for (field, n) in fields.iter().zip(self.numbers) {
            if field.depth <= depth {
                self.style.apart(out);
                field.show(out, self.style, index, *n);
            }
        }
    }
}

impl Field {
    // The field of value n.
    fn show(self, out: &mut Out, style: Style, index: Option<u64>, n: u64) {
        out.text(self.name);
        if let Some(index) = index {
            out.text("[");
            out.number(index);
            out.text("]");
        }
        out.text("=");
        out.number(n);
        if style == Style::Explained && !self.means.is_empty() {
            out.text(": ");
            out.piece(self.means, n);
        }
    }
}
