// What a later line is. It is told in `line.rt`: the contracts there cite definitions that see this type.
use crate::three::{MomentWords, ThreeWords};
use crystal::{MomentKind, Name};

/// What a later line is, with the words that it carries.
#[derive(Drop)]
pub(crate) enum Form<'a> {
    /// A line with no words, or a comment.
    Skipped,

    /// A metric line, with the squared lengths aa, bb, cc and the scalar products bc, ac, ab.
    Metric(ThreeWords<'a>, ThreeWords<'a>),

    /// An atom line, with its name, its position and its moment.
    Atom(Name, ThreeWords<'a>, MomentWords<'a>),

    /// An end line.
    End,

    /// A kind line, with the kind of the moments.
    Kind(MomentKind),

    /// A line of another form.
    Other,
}
