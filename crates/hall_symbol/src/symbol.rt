// A Hall symbol, and the operations that it names.
ghost use Rattle.std.specs.Prelude.{◌≡◌, ◌++◌, ◌∷◌, [], ◌<◌, ◌≤◌, length};
ghost use Rattle.hall_symbol.specs.Symbols.{HallSymbol, AreTwelfths};
ghost use Rattle.hall_symbol.specs.Translations.{parts};
ghost use Rattle.hall_symbol.specs.Views.{with_token, with_shift};

use crystal_spec::Sign;
use matrix3::Vec3;
use std::marker::Model;

/// An axis of the cell.
#[derive(Clone, Copy)]
pub(crate) enum Axis {
    /// The axis a.
    X,
    /// The axis b.
    Y,
    /// The axis c.
    Z,
}

/// A lattice letter.
#[derive(Clone, Copy)]
pub(crate) enum Lattice {
    /// Primitive.
    P,
    /// Centred on the face of b and c.
    A,
    /// Centred on the face of a and c.
    B,
    /// Centred on the face of a and b.
    C,
    /// Body-centred.
    I,
    /// Rhombohedral, in the obverse setting.
    R,
    /// Centred on all faces.
    F,
}

/// A proper rotation.
#[derive(Clone, Copy)]
pub(crate) enum Rotation {
    /// The identity.
    Identity,
    /// By a half turn about an axis.
    Twofold(Axis),
    /// By a third of a turn about an axis.
    Threefold(Axis),
    /// By a quarter of a turn about an axis.
    Fourfold(Axis),
    /// By a sixth of a turn about an axis.
    Sixfold(Axis),
    /// By a half turn about the difference of the two other axes: a - b for c.
    TwofoldDifference(Axis),
    /// By a half turn about the sum of the two other axes: a + b for c.
    TwofoldSum(Axis),
    /// By a third of a turn about a + b + c.
    ThreefoldDiagonal,
}

/// A rotation token: the operation that it names, before the origin is shifted.
#[derive(Clone, Copy)]
pub(crate) struct Token {
    /// Whether the rotation is followed by the inversion.
    pub is_negated: bool,
    /// The proper rotation.
    pub rotation: Rotation,
    /// The translation part, in units of 1/12, each coordinate from 0 to 11.
    pub translation: Vec3<u32>,
    /// The time sign.
    pub sign: Sign,
}

/// A Hall symbol.
#[derive(Drop)]
pub struct Symbol {
    is_inverted: bool,
    lattice: Lattice,
    tokens: [Token; 5],
    count: usize,
    shift: Vec3<u32>,
}

impl Model for Symbol {
    ghost use Rattle.std.specs.Prelude.{take, ◌≤◌};
    ghost use Rattle.hall_symbol.specs.Symbols.{HallSymbol, AreTwelfths};

    ghost Value = { HallSymbol };

    ghost view = { λ s. record { is_inverted = s.is_inverted; lattice = s.lattice; tokens = take s.count s.tokens; shift = s.shift } };

    ghost invariant = { λ s. (s.count ≤ 5) × AreTwelfths s.shift };
}

impl Symbol {
    /// The symbol without tokens.
    pub(crate) fn new(is_inverted: bool, lattice: Lattice) -> Symbol
        ensures { result ≡ record { is_inverted = is_inverted; lattice = lattice; tokens = []; shift = parts 0 0 0 } }
    {
        let zero = Vec3 { x: 0, y: 0, z: 0 };
        let token = Token {
            is_negated: false,
            rotation: Rotation::Identity,
            translation: zero,
            sign: Sign::Same,
        };
        Symbol {
            is_inverted,
            lattice,
            tokens: [token; 5],
            count: 0,
            shift: zero,
        }
    }

    /// The tokens in order.
    pub(crate) fn tokens(&self) -> &[Token]
        ensures value { result.now ≡ self.now.tokens }
        ensures few { length self.now.tokens ≤ 5 }
    {
        &self.tokens[..self.count]
    }

    /// Whether the inversion is among the operations.
    pub(crate) fn is_inverted(&self) -> bool
        ensures { result ≡ self.now.is_inverted }
    {
        self.is_inverted
    }

    /// The lattice.
    pub(crate) fn lattice(&self) -> Lattice
        ensures { result ≡ self.now.lattice }
    {
        self.lattice
    }

    /// The shift of the origin, in units of 1/12.
    pub(crate) fn shift(&self) -> Vec3<u32>
        ensures value { result ≡ self.now.shift }
        ensures below_12 { AreTwelfths self.now.shift }
    {
        self.shift
    }

    /// Adds a token behind the others.
    pub(crate) fn push(&mut self, token: Token)
        requires { length self.old.tokens < 5 }
        ensures { self.new ≡ with_token self.old token }
    {
        self.tokens[self.count] = token;
        self.count += 1;
    }

    /// Sets the shift of the origin.
    pub(crate) fn set_shift(&mut self, shift: Vec3<u32>)
        requires below_12 { AreTwelfths shift }
        ensures { self.new ≡ with_shift self.old shift }
    {
        self.shift = shift;
    }
}
