// How fields are shown.
use print::Out;

#[derive(Clone, Copy, PartialEq, Eq)]
pub enum Style {
    // Every field of a record, in one line.
    Line,
    // The fields that the message carries, one a line, with what they mean.
    Explained,
}

// How deep a field lies: always carried, carried where an outer condition holds, or where an inner one does too.
#[derive(Clone, Copy, PartialEq, Eq, PartialOrd, Ord)]
pub(crate) enum Depth {
    Always,
    Outer,
    Inner,
}

impl Style {
    // What goes before a field.
    pub(crate) fn apart(self, out: &mut Out) {
        match self {
            Style::Line => out.text(" "),
            Style::Explained => out.text("\n  "),
        }
    }

    // How deep a field may lie to be shown.
    pub(crate) fn depth(self, outer: bool, inner: bool) -> Depth {
        match (self, outer, inner) {
            (Style::Line, _, _) | (_, true, true) => Depth::Inner,
            (_, true, false) => Depth::Outer,
            (_, false, _) => Depth::Always,
        }
    }
}
