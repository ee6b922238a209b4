// A number as it is written. Its functions stand in `number.rt`: their contracts cite definitions that see this type.
ghost use Rattle.std.specs.Prelude.{◌<◌, ◌^◌};

/// A fraction in lowest terms with parts of at most 18 digits, with its sign apart.
///
/// Contracts see it as the `Fraction` of the crate numbers.
#[derive(Clone, Copy)]
pub struct NumberWord {
    /// Whether it has a `-`; 0 may have one.
    pub negative: bool,
    /// The size of the numerator.
    pub num: u128,
    /// The denominator.
    pub den: u128,
    ghost positive: { 0 < den },
    ghost short_num: { num < 10 ^ 18 },
    ghost short_den: { den < 10 ^ 18 },
}
