// Values from outside, worked by hand, one table a type.

use exact_num::{Exact, Frac, Int, Residue, gcd, lcm_within};

/// The largest denominator of a fraction.
const LARGEST_DENOMINATOR: i64 = 1_000_000_000_000;

/// The largest integer.
const LARGEST: i128 = 1_000_000_000_000_000_000_000_000_000_000_000_000;

/// The terms of a fraction, lowest or not.
type Terms = (i64, i64);

/// Two fractions; their sum, product and quotient, where there is one.
struct Fractions(
    Terms,
    Terms,
    Option<(i128, i128)>,
    Option<(i128, i128)>,
    Option<(i128, i128)>,
);

#[rattlefmt::skip]
const FRACTIONS: &[Fractions] = &[
    Fractions((1, 6), (1, 10), Some((4, 15)), Some((1, 60)), Some((5, 3))),
    Fractions((-2, 3), (9, 4), Some((19, 12)), Some((-3, 2)), Some((-8, 27))),
    Fractions((6, -4), (3, 2), Some((0, 1)), Some((-9, 4)), Some((-1, 1))),
    Fractions((1, 2), (0, 7), Some((1, 2)), Some((0, 1)), None),
    Fractions((1, LARGEST_DENOMINATOR), (1, LARGEST_DENOMINATOR), Some((1, 500_000_000_000)), None, Some((1, 1))),
    Fractions((1, 0), (1, 1), None, None, None),
    Fractions((1, LARGEST_DENOMINATOR + 1), (1, 1), None, None, None),
];

/// Two integers; their sum, product and exact quotient, where there is one.
struct Integers(i128, i128, Option<i128>, Option<i128>, Option<i128>);

#[rattlefmt::skip]
const INTEGERS: &[Integers] = &[
    Integers(12, -4, Some(8), Some(-48), Some(-3)),
    Integers(12, 5, Some(17), Some(60), None),
    Integers(0, 0, Some(0), Some(0), None),
    Integers(LARGEST, 1, None, Some(LARGEST), Some(LARGEST)),
    Integers(-LARGEST, LARGEST, Some(0), None, Some(-1)),
    Integers(LARGEST + 1, 1, None, None, None),
];

/// Two integers; modulo 5 their sum, difference and product, and the opposite of the first.
struct Residues(i128, i128, u32, u32, u32, u32);

#[rattlefmt::skip]
const RESIDUES: &[Residues] = &[
    Residues(3, 4, 2, 4, 2, 2),
    Residues(-7, 12, 0, 1, 1, 2),
    Residues(0, 1, 1, 4, 0, 0),
];

/// Two integers, a bound, and their least common multiple where it is within the bound.
struct Multiples(i128, i128, i128, Option<i128>);

#[rattlefmt::skip]
const MULTIPLES: &[Multiples] = &[
    Multiples(4, 6, 11, None),
    Multiples(4, 6, 12, Some(12)),
    Multiples(7, 1, 7, Some(7)),
    Multiples(200, 201, 40199, None),
    Multiples(200, 201, 40200, Some(40200)),
];

fn fraction(terms: (i64, i64)) -> Option<Frac> {
    Frac::new(terms.0 as i128, terms.1 as i128)
}

fn terms(f: Frac) -> (i128, i128) {
    (f.num(), f.den())
}

fn sum(a: (i64, i64), b: (i64, i64)) -> Option<(i128, i128)> {
    Some(terms(fraction(a)?.checked_add(&fraction(b)?)?))
}

fn product(a: (i64, i64), b: (i64, i64)) -> Option<(i128, i128)> {
    Some(terms(fraction(a)?.checked_mul(&fraction(b)?)?))
}

fn quotient(a: (i64, i64), b: (i64, i64)) -> Option<(i128, i128)> {
    Some(terms(fraction(a)?.checked_div(&fraction(b)?)?))
}

/// The number of the first two fractions with another sum, product or quotient; else how many rows there are.
fn first_wrong_fractions() -> usize {
    for i in 0..FRACTIONS.len() {
        let Fractions(a, b, added, multiplied, divided) = &FRACTIONS[i];
        if sum(*a, *b) != *added || product(*a, *b) != *multiplied || quotient(*a, *b) != *divided {
            return i;
        }
    }
    FRACTIONS.len()
}

#[test]
fn fractions_in_lowest_terms(rt: HostRuntime) {
    assert_eq!(rt; first_wrong_fractions(), FRACTIONS.len());
}

fn int_sum(a: i128, b: i128) -> Option<i128> {
    Some(Int::new(a)?.checked_add(&Int::new(b)?)?.get())
}

fn int_product(a: i128, b: i128) -> Option<i128> {
    Some(Int::new(a)?.checked_mul(&Int::new(b)?)?.get())
}

fn int_quotient(a: i128, b: i128) -> Option<i128> {
    Some(Int::new(a)?.div_exact(&Int::new(b)?)?.get())
}

/// The number of the first two integers with another sum, product or quotient; else how many rows there are.
fn first_wrong_integers() -> usize {
    for i in 0..INTEGERS.len() {
        let Integers(a, b, added, multiplied, divided) = &INTEGERS[i];
        if int_sum(*a, *b) != *added
            || int_product(*a, *b) != *multiplied
            || int_quotient(*a, *b) != *divided
        {
            return i;
        }
    }
    INTEGERS.len()
}

#[test]
fn integers_up_to_their_bound(rt: HostRuntime) {
    assert_eq!(rt; first_wrong_integers(), INTEGERS.len());
}

/// Whether the two residues modulo 5 have this sum, difference and product, and the first this opposite.
fn are_residues(row: &Residues) -> bool {
    let Residues(a, b, added, subtracted, multiplied, opposite) = row;
    let left = Residue::new(*a, 5);
    let right = Residue::new(*b, 5);
    (left + right).get() == *added
        && (left - right).get() == *subtracted
        && (left * right).get() == *multiplied
        && (-left).get() == *opposite
        && left.modulus() == 5
}

/// The number of the first row that does not hold; else how many there are.
fn first_wrong_residues() -> usize {
    for i in 0..RESIDUES.len() {
        if !are_residues(&RESIDUES[i]) {
            return i;
        }
    }
    RESIDUES.len()
}

#[test]
fn residues_modulo_five(rt: HostRuntime) {
    assert_eq!(rt; first_wrong_residues(), RESIDUES.len());
}

fn multiple(a: i128, b: i128, bound: i128) -> Option<i128> {
    if a < 1 || b < 1 || bound < 0 {
        None
    } else {
        lcm_within(a, b, bound)
    }
}

fn unsigned_multiple(a: u128, b: u128, bound: u128) -> Option<u128> {
    if a == 0 || b == 0 {
        None
    } else {
        lcm_within(a, b, bound)
    }
}

/// Whether these are greatest common divisors, of signed and of unsigned numbers.
fn are_divisors() -> bool {
    gcd(0i128, 0i128) == 0
        && gcd(12i128, 18i128) == 6
        && gcd(0u128, 7u128) == 7
        && gcd(48u128, 36u128) == 12
}

/// The number of the first row with another least common multiple; else how many there are.
fn first_wrong_multiple() -> usize {
    for i in 0..MULTIPLES.len() {
        let Multiples(a, b, bound, want) = &MULTIPLES[i];
        if multiple(*a, *b, *bound) != *want {
            return i;
        }
    }
    MULTIPLES.len()
}

#[test]
fn divisors_and_multiples(rt: HostRuntime) {
    assert!(rt; are_divisors());
    assert_eq!(rt; first_wrong_multiple(), MULTIPLES.len());
    assert!(rt; unsigned_multiple(21, 6, 42) == Some(42));
    assert!(rt; unsigned_multiple(21, 6, 41).is_none());
}

/// Whether zero and one are zero, the sum with itself, and the product with itself.
fn of_any_type<T: Exact>(a: &T) -> (bool, bool, Option<T>, Option<T>) {
    (
        a.zero_like().is_zero(),
        a.one_like().is_zero(),
        a.checked_add(a),
        a.checked_mul(a),
    )
}

/// Whether 3, as an integer, has the sum 6 with itself, and the product 9.
fn integers_through_their_trait() -> Option<bool> {
    let three = Int::new(3)?;
    Some(of_any_type(&three) == (true, false, Int::new(6), Int::new(9)))
}

/// Whether 1/2 has the sum 1 with itself, and the product 1/4.
fn fractions_through_their_trait() -> Option<bool> {
    let half = Frac::new(1, 2)?;
    Some(of_any_type(&half) == (true, false, Frac::new(1, 1), Frac::new(1, 4)))
}

/// Whether 3 modulo 5 has the sum 1 with itself, and the product 4.
fn residues_through_their_trait() -> bool {
    let (zero, one, sum, product) = of_any_type(&Residue::new(3, 5));
    zero && !one && sum == Some(Residue::new(1, 5)) && product == Some(Residue::new(4, 5))
}

#[test]
fn each_type_through_its_trait(rt: HostRuntime) {
    assert!(rt; integers_through_their_trait() == Some(true));
    assert!(rt; fractions_through_their_trait() == Some(true));
    assert!(rt; residues_through_their_trait());
}
