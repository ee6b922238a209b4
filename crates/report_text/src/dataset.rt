// The text of what is found of a cell, as JSON.
ghost use Rattle.std.specs.Prelude.{◌≡◌, ◌≤◌, ◌<◌, drop, length, slice_get, IfSome, string_bytes, IsAscii, IfOk};
ghost use Rattle.op_group.specs.Views.{operation_of};
ghost use Rattle.serde_json.specs.View.{view, items_view};
ghost use Rattle.report_text.specs.DatasetText.{entries_words, metric_words, operation_data, operation_items, orbit_data, orbit_items, site_data, site_items, dataset, dataset_text};
ghost use Rattle.site_orbits.specs.Entries.{AreFirstsBelow};

use cell_print::push_products;
use crystal::Cell;
use exact_num::Int;
use io_edge::Bytes;
use mag_type::Kind;
use matrix3::Mat3;
use op_group::{Op, OpList};
use operation_text::{push_entries, push_parts};
use prim_cell::Primitive;
use serde_json::{Map, Value, put};
use site_orbits::Orbits;
use std::alloc::{AllocError, Global};

/// The words behind a first space as a text.
fn words_behind_space(alloc: Global, words: &Bytes) -> Result<String, AllocError>
    requires space { 1 ≤ length words.now }
    requires ascii { IsAscii words.now }
    ensures { IfOk result (λ text. string_bytes text ≡ drop 1 words.now) }
{
    String::from_utf8_lossy(alloc, &words.as_slice()[1..])
}

/// The entries of a matrix row by row, with single spaces between.
fn entries_words(alloc: Global, matrix: &Mat3<Int>) -> Result<String, AllocError>
    ensures { IfOk result (λ text. string_bytes text ≡ entries_words matrix.now) }
{
    let mut words = Bytes::new(alloc);
    push_entries(alloc, &mut words, matrix)?;
    words_behind_space(alloc, &words)
}

/// The six scalar products of the axes of a cell in lowest terms, with single spaces between.
fn metric_words(alloc: Global, cell: &Cell) -> Result<String, AllocError>
    ensures { IfOk result (λ text. string_bytes text ≡ metric_words cell.now) }
{
    cell.invariant();
    let scale = cell.scale().get().unsigned_abs();
    let mut words = Bytes::new(alloc);
    push_products(&mut words, scale, cell.metric())?;
    words_behind_space(alloc, &words)
}

/// The four parts of an operation as one text.
fn operation_value(alloc: Global, n: u32, op: &Op) -> Result<Value, AllocError>
    ensures { IfOk result (λ value. view value ≡ operation_data n (operation_of op.now)) }
{
    let mut parts = Bytes::new(alloc);
    push_parts(&mut parts, n, op)?;
    let text = String::from_utf8_lossy(alloc, parts.as_slice())?;
    Ok(Value::from(text))
}

/// The operations of a list in order, each as a text.
fn operation_values(alloc: Global, list: &OpList) -> Result<Vec<Value>, AllocError>
    ensures { IfOk result (λ values. items_view values.items ≡ operation_items list.now) }
{
    let n = list.n();
    let mut values = Vec::new(alloc);
    for op in list.ops() {
        values.push(operation_value(alloc, n, op)?)?;
    }
    Ok(values)
}

/// The number from 1 of the first alike atom of the atom number i.
fn orbit_value(orbits: &Orbits, i: usize) -> Value
    requires below { i < length orbits.now }
    requires firsts { AreFirstsBelow orbits.now }
    ensures { IfSome (slice_get orbits.now i) (λ orbit. view result ≡ orbit_data orbit) }
{
    let _count = orbits.count();
    Value::from(orbits.first(i) + 1)
}

/// The numbers from 1 of the first alike atoms, atom by atom.
fn orbit_values(alloc: Global, orbits: &Orbits, atoms: usize) -> Result<Vec<Value>, AllocError>
    requires same_atoms { atoms ≡ length orbits.now }
    requires firsts { AreFirstsBelow orbits.now }
    ensures { IfOk result (λ values. items_view values.items ≡ orbit_items orbits.now) }
{
    let mut values = Vec::new(alloc);
    for i in 0..atoms {
        values.push(orbit_value(orbits, i))?;
    }
    Ok(values)
}

/// How many operations the site-symmetry group of the atom number i has.
fn site_value(orbits: &Orbits, i: usize) -> Value
    requires { i < length orbits.now }
    ensures { IfSome (slice_get orbits.now i) (λ orbit. view result ≡ site_data orbit) }
{
    Value::from(orbits.site(i).count())
}

/// How many operations the site-symmetry groups have, atom by atom.
fn site_values(alloc: Global, orbits: &Orbits, atoms: usize) -> Result<Vec<Value>, AllocError>
    requires same_atoms { atoms ≡ length orbits.now }
    ensures { IfOk result (λ values. items_view values.items ≡ site_items orbits.now) }
{
    let mut values = Vec::new(alloc);
    for i in 0..atoms {
        values.push(site_value(orbits, i))?;
    }
    Ok(values)
}

/// What is found of a cell, as one object.
fn dataset_value(
    alloc: Global,
    prim: &Primitive,
    list: &OpList,
    cell_order: u64,
    kind: &Kind,
    orbits: &Orbits,
    atoms: usize,
) -> Result<Value, AllocError>
    requires same_atoms { atoms ≡ length orbits.now }
    requires firsts { AreFirstsBelow orbits.now }
    ensures { IfOk result (λ value. view value ≡ dataset prim.now.index prim.now.back prim.now.cell list.now cell_order kind.now orbits.now) }
{
    let mut members = Map::new(alloc);
    let back = entries_words(alloc, prim.back())?;
    put(&mut members, alloc, "back", Value::from(back))?;
    put(&mut members, alloc, "cell_order", Value::from(cell_order))?;
    put(
        &mut members,
        alloc,
        "family_order",
        Value::from(kind.family),
    )?;
    put(&mut members, alloc, "index", Value::from(prim.index()))?;
    let metric = metric_words(alloc, prim.cell())?;
    put(&mut members, alloc, "metric", Value::from(metric))?;
    let operations = operation_values(alloc, list)?;
    put(&mut members, alloc, "operations", Value::from(operations))?;
    let first_atoms = orbit_values(alloc, orbits, atoms)?;
    put(&mut members, alloc, "orbits", Value::from(first_atoms))?;
    put(&mut members, alloc, "order", Value::from(list.count()))?;
    let sites = site_values(alloc, orbits, atoms)?;
    put(&mut members, alloc, "sites", Value::from(sites))?;
    put(&mut members, alloc, "type", Value::from(kind.kind))?;
    put(
        &mut members,
        alloc,
        "unprimed_order",
        Value::from(kind.unprimed),
    )?;
    Ok(Value::Object(members))
}

/// What is found of a cell, as the compact text of one object of JSON, with LF at the end.
///
/// The object tells of the primitive cell `prim` its Q = P⁻¹ row by row, its index and its metric tensor; of `list`, the
/// symmetry operations of the primitive cell, each operation and how many there are; `cell_order`, how many operations the
/// cell has that the primitive cell was made of; of `orbits`, those of the `atoms` atoms of that cell, atom by atom the number
/// from 1 of the first alike atom and how many operations the site-symmetry group has; and of `kind` the magnetic type and the
/// orders of the family group and of the maximal space subgroup. Keys are in increasing order. Refuses for want of memory
/// alone.
pub fn dataset_report(
    alloc: Global,
    prim: &Primitive,
    list: &OpList,
    cell_order: u64,
    kind: &Kind,
    orbits: &Orbits,
    atoms: usize,
) -> Result<Bytes, AllocError>
    requires same_atoms { atoms ≡ length orbits.now }
    requires firsts { AreFirstsBelow orbits.now }
    ensures { IfOk result (λ text. text ≡ dataset_text prim.now.index prim.now.back prim.now.cell list.now cell_order kind.now orbits.now) }
{
    let value = dataset_value(alloc, prim, list, cell_order, kind, orbits, atoms)?;
    let text = value.to_string(alloc)?;
    let mut out = Bytes::copy(alloc, text.as_bytes())?;
    out.push(b'\n')?;
    Ok(out)
}
