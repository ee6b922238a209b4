// Three words and three numbers, one for each axis. The functions on them stand in `number_words.rt`: their contracts cite
// definitions that see these types.
use plain_text::NumberWord;

/// Three words that are to be numbers: of the axes a, b and c, or of the pairs bc, ac and ab.
#[derive(Clone, Copy)]
pub(crate) struct ThreeWords<'a> {
    pub a: &'a [u8],
    pub b: &'a [u8],
    pub c: &'a [u8],
}

/// The words of a moment that are to be numbers.
#[derive(Clone, Copy)]
pub(crate) enum MomentWords<'a> {
    /// None: the moment is 0.
    Absent,

    /// One, of a scalar.
    Scalar(&'a [u8]),

    /// Three, of a vector.
    Vector(ThreeWords<'a>),
}

/// Three numbers: of the axes a, b and c, or of the pairs bc, ac and ab.
#[derive(Clone, Copy)]
pub(crate) struct ThreeNumbers {
    pub a: NumberWord,
    pub b: NumberWord,
    pub c: NumberWord,
}
