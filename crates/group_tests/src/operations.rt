// Operations in quarters of the cell, compositions, inverses and step bases, worked by hand.

ghost use Rattle.std.specs.Prelude.{◌≡◌, ◌↔◌, ◌≤◌, IsTrue};
ghost use Rattle.ring.specs.Size.{AtMost};
ghost use Rattle.lists.specs.Increasing.{IsMember};
ghost use Rattle.matrix3.specs.Matrices.{EachEntry};
ghost use Rattle.crystal_spec.specs.Matrices.{Triple, sum_of};
ghost use Rattle.positions.specs.Positions.{modulo, triple_of};
ghost use Rattle.basis_spec.specs.Translations.{pure_translation};
ghost use Rattle.basis_spec.specs.StepBases.{IsClosed};
ghost use Rattle.op_group.specs.Views.{operation_of};

use crystal_spec::Sign;
use crystal_spec::Sign::{Reversed, Same};
use exact_num::Int;
use matrix3::Mat3;
use op_group::{Op, OpList, Steps3, compare, compose, inverse, step_basis};
use std::alloc::{AllocError, Global};
use std::cmp::Ordering;

type Rows = [[i8; 3]; 3];

const IDENTITY: Rows = [[1, 0, 0], [0, 1, 0], [0, 0, 1]];

const HALF_TURN: Rows = [[-1, 0, 0], [0, -1, 0], [0, 0, 1]];

const QUARTER_TURN: Rows = [[0, -1, 0], [1, 0, 0], [0, 0, 1]];

const BACKWARD_QUARTER_TURN: Rows = [[0, 1, 0], [-1, 0, 0], [0, 0, 1]];

const MIRROR_ACROSS_C: Rows = [[1, 0, 0], [0, 1, 0], [0, 0, -1]];

const ROTOINVERSION: Rows = [[0, 1, 0], [-1, 0, 0], [0, 0, -1]];

const BACKWARD_ROTOINVERSION: Rows = [[0, -1, 0], [1, 0, 0], [0, 0, -1]];

const SKEW: Rows = [[1, 0, 0], [0, 1, 0], [0, 7, -50]];

/// A matrix, a translation part and a time sign.
struct Given(Rows, [u32; 3], Sign);

const REVERSED_SCREW: Given = Given(HALF_TURN, [3, 3, 3], Reversed);

const TURN: Given = Given(QUARTER_TURN, [0, 0, 0], Same);

const NOTHING: Given = Given(IDENTITY, [0, 0, 0], Same);

const TIME_REVERSAL: Given = Given(IDENTITY, [0, 0, 0], Reversed);

const QUARTER_ALONG_C: Given = Given(IDENTITY, [0, 0, 1], Same);

const HALF_ALONG_A: Given = Given(IDENTITY, [2, 0, 0], Same);

const OBLIQUE: Given = Given(SKEW, [0, 0, 0], Same);

/// Seven operations in increasing order.
#[rattlefmt::skip]
const IN_ORDER: &[Given] = &[REVERSED_SCREW, TURN, NOTHING, TIME_REVERSAL, QUARTER_ALONG_C, HALF_ALONG_A, OBLIQUE];

/// Six of them in another order.
#[rattlefmt::skip]
const MIXED: &[Given] = &[QUARTER_ALONG_C, REVERSED_SCREW, OBLIQUE, NOTHING, TURN, HALF_ALONG_A];

/// The six with repetitions.
#[rattlefmt::skip]
const REPEATED: &[Given] = &[
    QUARTER_ALONG_C, REVERSED_SCREW, OBLIQUE, NOTHING, REVERSED_SCREW, TURN, HALF_ALONG_A, NOTHING, OBLIQUE,
];

/// The six in increasing order.
#[rattlefmt::skip]
const SIX_IN_ORDER: &[Given] = &[REVERSED_SCREW, TURN, NOTHING, QUARTER_ALONG_C, HALF_ALONG_A, OBLIQUE];

/// Two operations and their composition: first the one and then the other.
#[rattlefmt::skip]
const COMPOSITIONS: &[[Given; 3]] = &[
    [TURN, Given(IDENTITY, [1, 0, 0], Same), Given(QUARTER_TURN, [1, 0, 0], Same)],
    [Given(IDENTITY, [1, 0, 0], Same), TURN, Given(QUARTER_TURN, [0, 1, 0], Same)],
    [Given(HALF_TURN, [0, 0, 1], Same), Given(HALF_TURN, [0, 0, 1], Same), Given(IDENTITY, [0, 0, 2], Same)],
    [Given(MIRROR_ACROSS_C, [3, 0, 0], Same), Given(MIRROR_ACROSS_C, [3, 0, 0], Same), HALF_ALONG_A],
    [Given(HALF_TURN, [0, 0, 1], Same), TIME_REVERSAL, Given(HALF_TURN, [0, 0, 1], Reversed)],
    [TIME_REVERSAL, Given(HALF_TURN, [0, 0, 1], Same), Given(HALF_TURN, [0, 0, 1], Reversed)],
    [TIME_REVERSAL, TIME_REVERSAL, NOTHING],
];

/// Operations and their inverses.
#[rattlefmt::skip]
const INVERSES: &[[Given; 2]] = &[
    [Given(QUARTER_TURN, [0, 0, 1], Same), Given(BACKWARD_QUARTER_TURN, [0, 0, 3], Same)],
    [Given(QUARTER_TURN, [1, 0, 1], Same), Given(BACKWARD_QUARTER_TURN, [0, 1, 3], Same)],
    [Given(ROTOINVERSION, [1, 2, 3], Same), Given(BACKWARD_ROTOINVERSION, [2, 3, 3], Same)],
    [Given(IDENTITY, [1, 0, 0], Reversed), Given(IDENTITY, [3, 0, 0], Reversed)],
];

/// Pure translations in units of 1/n, and the index of their lattice with the two matrices of its step basis.
struct Lattice(u32, &'static [[u32; 3]], u32, Rows, Rows);

/// A primitive cell, one doubled along a, a body-centred, a face-centred and a rhombohedrally centred one.
#[rattlefmt::skip]
const LATTICES: &[Lattice] = &[
    Lattice(4, &[[0, 0, 0]], 1, IDENTITY, IDENTITY),
    Lattice(2, &[[0, 0, 0], [1, 0, 0]], 2, [[2, 0, 0], [0, 1, 0], [0, 0, 1]], [[1, 0, 0], [0, 2, 0], [0, 0, 2]]),
    Lattice(2, &[[0, 0, 0], [1, 1, 1]], 2, [[1, 0, -1], [0, 1, -1], [0, 0, 2]], [[2, 0, 1], [0, 2, 1], [0, 0, 1]]),
    Lattice(2, &[[0, 0, 0], [0, 1, 1], [1, 0, 1], [1, 1, 0]], 4,
        [[1, -1, -1], [0, 2, 0], [0, 0, 2]], [[4, 2, 2], [0, 2, 0], [0, 0, 2]]),
    Lattice(3, &[[0, 0, 0], [2, 1, 1], [1, 2, 2]], 3, [[1, 0, -2], [0, 1, -1], [0, 0, 3]], [[3, 0, 2], [0, 3, 1], [0, 0, 1]]),
];

/// Operations that are no pure translations.
const OTHERS: &[Given] = &[
    Given(IDENTITY, [1, 0, 0], Reversed),
    Given(HALF_TURN, [0, 0, 1], Same),
];

fn whole(value: i8) -> Int
    ensures { AtMost 128 result }
{
    Int::new(value as i128).unwrap()
}

fn matrix(rows: &Rows) -> Mat3<Int>
    ensures { EachEntry (AtMost 128) result }
{
    let [[a11, a12, a13], [a21, a22, a23], [a31, a32, a33]] = *rows;
    Mat3 {
        a11: whole(a11),
        a12: whole(a12),
        a13: whole(a13),
        a21: whole(a21),
        a22: whole(a22),
        a23: whole(a23),
        a31: whole(a31),
        a32: whole(a32),
        a33: whole(a33),
    }
}

fn operation(given: &Given) -> Op
    ensures { EachEntry (AtMost 128) result.w }
{
    let Given(rows, shift, sign) = given;
    Op {
        w: matrix(rows),
        shift: *shift,
        sign: *sign,
    }
}

/// Whether the one comes before the other, and the other is equal to itself.
fn is_before(one: &Given, other: &Given) -> bool {
    let one = operation(one);
    let other = operation(other);
    compare(&one, &other) == Ordering::Less
        && compare(&other, &one) == Ordering::Greater
        && compare(&other, &other) == Ordering::Equal
}

/// The number, from 1, of the first operation that does not come behind the one before it; else how many there are.
fn first_out_of_order(given: &[Given]) -> usize {
    for i in 1..given.len() {
        if !is_before(&given[i - 1], &given[i]) {
            return i;
        }
    }
    given.len()
}

#[test]
fn each_operation_is_less_than_the_next(rt: HostRuntime) {
    assert_eq!(rt; first_out_of_order(IN_ORDER), IN_ORDER.len());
}

/// Puts the operation into the list and tells whether it was new; `None` where it is outside the cell, or memory is wanting.
fn put(list: &mut OpList, op: Op) -> Option<bool> {
    let n = list.n();
    let [x, y, z] = op.shift;
    if x < n && y < n && z < n {
        list.insert(op).ok()
    } else {
        None
    }
}

/// Whether the list has the operation only once it is put there, and then takes it no second time.
fn is_put_once(list: &mut OpList, op: &Op) -> bool {
    !list.has(op) && put(list, *op) == Some(true) && put(list, *op) == Some(false) && list.has(op)
}

/// The number of the first operation that is not put once; else how many there are.
fn first_not_put(list: &mut OpList, given: &[Given]) -> usize {
    for i in 0..given.len() {
        if !is_put_once(list, &operation(&given[i])) {
            return i;
        }
    }
    given.len()
}

/// Whether the operation stands in the list at this place.
fn is_at(list: &OpList, i: usize, op: &Op) -> bool {
    i < list.count() && list.at(i) == op && list.ops().get(i) == Some(op)
}

/// Whether the list has these operations in this order and no others.
fn lists(list: &OpList, given: &[Given]) -> bool {
    for i in 0..given.len() {
        if !is_at(list, i, &operation(&given[i])) {
            return false;
        }
    }
    list.count() == given.len() && list.ops().len() == given.len()
}

/// Whether a list into which the six are put has them in order, each once, and the seventh not.
fn is_put_in_order(alloc: Global) -> bool {
    let mut list = OpList::new(alloc, 4);
    first_not_put(&mut list, MIXED) == MIXED.len()
        && !list.has(&operation(&TIME_REVERSAL))
        && lists(&list, SIX_IN_ORDER)
}

/// The list of the operations within the cell, in quarters, put in order at once.
fn put_in_order(alloc: Global, given: &[Given]) -> Result<OpList, AllocError> {
    let mut kept = Vec::new(alloc);
    for item in given {
        let op = operation(item);
        let [x, y, z] = op.shift;
        if x < 4 && y < 4 && z < 4 {
            kept.push(op)?;
        }
    }
    OpList::sorted(4, kept)
}

/// Whether the six, with repetitions, are put in order at once, each once.
fn is_sorted_at_once(alloc: Global) -> bool {
    match put_in_order(alloc, REPEATED) {
        Ok(list) => lists(&list, SIX_IN_ORDER),
        Err(_) => false,
    }
}

#[test]
fn a_list_is_in_order_and_has_each_operation_once(rt: HostRuntime) {
    assert!(rt; is_put_in_order(rt.alloc()));
    assert!(rt; is_sorted_at_once(rt.alloc()));
}

/// First the one and then the other, in quarters.
fn in_turn(first: &Given, next: &Given) -> Op {
    let first = operation(first);
    let next = operation(next);
    compose(4, &first, &next)
}

/// The number of the first composition that is another; else how many there are.
fn first_wrong_composition() -> usize {
    for i in 0..COMPOSITIONS.len() {
        let [first, next, both] = &COMPOSITIONS[i];
        if in_turn(first, next) != operation(both) {
            return i;
        }
    }
    COMPOSITIONS.len()
}

#[test]
fn one_operation_after_another(rt: HostRuntime) {
    assert_eq!(rt; first_wrong_composition(), COMPOSITIONS.len());
}

/// The inverse in quarters, or `None` where the determinant is neither 1 nor -1.
fn undone(given: &Given) -> Option<Op> {
    let op = operation(given);
    if op.w.handed().get().abs() == 1 {
        Some(inverse(4, &op))
    } else {
        None
    }
}

/// The number of the first inverse that is another; else how many there are.
fn first_wrong_inverse() -> usize {
    for i in 0..INVERSES.len() {
        let [given, back] = &INVERSES[i];
        if undone(given) != Some(operation(back)) {
            return i;
        }
    }
    INVERSES.len()
}

#[test]
fn inverses(rt: HostRuntime) {
    assert_eq!(rt; first_wrong_inverse(), INVERSES.len());
}

/// The sum of two translations modulo n.
fn sum_modulo(n: u32, a: [u32; 3], b: [u32; 3]) -> [u32; 3]
    requires { 1 ≤ n }
    ensures { triple_of result ≡ modulo n (sum_of (triple_of a) (triple_of b)) }
{
    let n = n as u64;
    [
        ((a[0] as u64 + b[0] as u64) % n) as u32,
        ((a[1] as u64 + b[1] as u64) % n) as u32,
        ((a[2] as u64 + b[2] as u64) % n) as u32,
    ]
}

/// Whether the list has the translation.
fn has_translation(list: &OpList, shift: [u32; 3]) -> bool
    ensures { IsTrue result → IsMember (pure_translation (triple_of shift)) list.now.operations }
{
    list.has(&Op {
        w: Mat3::identity(),
        shift,
        sign: Same,
    })
}

/// Whether the operation is (I, t, +1).
fn is_pure_translation(op: &Op) -> bool
    ensures { IsTrue result ↔ (operation_of op.now ≡ pure_translation (triple_of op.now.shift)) }
{
    let op = *op;
    op.w == Mat3::identity() && op.sign == Same
}

/// Whether the list has the sums modulo n of this translation and its pure translations.
fn has_sums_with(list: &OpList, a: [u32; 3]) -> bool
    requires { 1 ≤ list.now.n }
    ensures { IsTrue result
        → (u : Triple) → IsMember (pure_translation u) list.now.operations → IsMember (pure_translation (modulo list.now.n (sum_of (triple_of a) u))) list.now.operations }
{
    for i in 0..list.count() {
        let b = list.at(i);
        if is_pure_translation(b) && !has_translation(list, sum_modulo(list.n(), a, b.shift)) {
            return false;
        }
    }
    true
}

/// Whether the pure translations of the list hold (0, 0, 0), and with each two their sum modulo n.
fn is_closed(list: &OpList) -> bool
    requires { 1 ≤ list.now.n }
    ensures { IsTrue result → IsClosed list.now.n list.now.operations }
{
    for i in 0..list.count() {
        let a = list.at(i);
        if is_pure_translation(a) && !has_sums_with(list, a.shift) {
            return false;
        }
    }
    has_translation(list, [0; 3])
}

/// Puts these translations into the list.
fn put_translations(list: &mut OpList, shifts: &[[u32; 3]]) -> bool {
    for shift in shifts {
        let translation = Op {
            w: Mat3::identity(),
            shift: *shift,
            sign: Same,
        };
        if put(list, translation).is_none() {
            return false;
        }
    }
    true
}

/// Puts these operations into the list.
fn put_others(list: &mut OpList, given: &[Given]) -> bool {
    for item in given {
        if put(list, operation(item)).is_none() {
            return false;
        }
    }
    true
}

/// The step basis of the list, or `None` where its translations are not closed under sums.
fn steps_of(list: &OpList) -> Option<Steps3> {
    if list.n() > 0 && list.count() < 1000 && is_closed(list) {
        Some(step_basis(list))
    } else {
        None
    }
}

/// Whether the list of these translations and the other operations has this step basis.
fn has_steps(alloc: Global, lattice: &Lattice, others: &[Given]) -> bool {
    let Lattice(n, shifts, index, back, fore) = lattice;
    let expected = Steps3 {
        index: *index,
        back: matrix(back),
        fore: matrix(fore),
    };
    let mut list = OpList::new(alloc, *n);
    put_translations(&mut list, shifts)
        && put_others(&mut list, others)
        && steps_of(&list) == Some(expected)
}

/// The number of the first lattice that has another step basis beside these operations; else how many there are.
fn first_wrong_steps(alloc: Global, others: &[Given]) -> usize {
    for i in 0..LATTICES.len() {
        if !has_steps(alloc, &LATTICES[i], others) {
            return i;
        }
    }
    LATTICES.len()
}

#[test]
fn step_bases_leave_out_what_is_no_translation(rt: HostRuntime) {
    assert_eq!(rt; first_wrong_steps(rt.alloc(), &[]), LATTICES.len());
    assert_eq!(rt; first_wrong_steps(rt.alloc(), OTHERS), LATTICES.len());
}
