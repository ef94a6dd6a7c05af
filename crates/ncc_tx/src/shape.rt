//! What the value of an entry is made of, before its sources are parsed.

ghost use Rattle.std.specs.Prelude.{IfOk};
ghost use Rattle.ncc_tx.specs.Spelled.{Reads, ReadsShape, call_value, calls_value, pair_value, rows_value, told_value};

use ncc_pack::{Memory, Rows, Sequence, Value};
use ncc_store::{Call, Calls, RowLists};
use std::alloc::Global;

/// What an entry is but for the statements that its sources spell.
#[derive(Debug, Drop)]
pub(crate) enum Shape {
    Noop,
    Tx { calls: Calls, told: RowLists },
}

/// The two items of a list.
fn two_of(value: Value) -> Option<(Value, Value)>
    ensures { Reads pair_value value result }
{
    let Value::List(values) = value else {
        return None;
    };
    let mut items = values.into_vec();
    let second = items.pop()?;
    let first = items.pop()?;
    if items.is_empty() {
        Some((first, second))
    } else {
        None
    }
}

fn call_of(value: Value) -> Option<Call>
    ensures { Reads call_value value result }
{
    let (front, back) = two_of(value)?;
    let Value::Text(source) = front else {
        return None;
    };
    let Value::Dict(params) = back else {
        return None;
    };
    Some(Call { source, params })
}

fn calls_of(alloc: Global, value: Value) -> Result<Option<Calls>, Memory>
    ensures { IfOk result (Reads calls_value value) }
{
    let Value::List(values) = value else {
        return Ok(None);
    };
    let mut calls = Sequence::new(alloc);
    for item in values.into_vec() {
        match call_of(item) {
            None => return Ok(None),
            Some(call) => calls.push(call)?,
        }
    }
    Ok(Some(calls))
}

fn rows_of(alloc: Global, value: Value) -> Result<Option<Rows>, Memory>
    ensures { IfOk result (Reads rows_value value) }
{
    let Value::List(values) = value else {
        return Ok(None);
    };
    let mut rows = Sequence::new(alloc);
    for item in values.into_vec() {
        match item {
            Value::List(row) => rows.push(row)?,
            _ => return Ok(None),
        }
    }
    Ok(Some(rows))
}

fn told_of(alloc: Global, value: Value) -> Result<Option<RowLists>, Memory>
    ensures { IfOk result (Reads told_value value) }
{
    let Value::List(values) = value else {
        return Ok(None);
    };
    let mut told = Sequence::new(alloc);
    for item in values.into_vec() {
        match rows_of(alloc, item)? {
            None => return Ok(None),
            Some(rows) => told.push(rows)?,
        }
    }
    Ok(Some(told))
}

/// The shape that a value is of, where it is of one.
pub(crate) fn shape_of(alloc: Global, value: Value) -> Result<Option<Shape>, Memory>
    ensures { IfOk result (ReadsShape value) }
{
    if let Value::Null = value {
        return Ok(Some(Shape::Noop));
    }
    let Some((front, back)) = two_of(value) else {
        return Ok(None);
    };
    let Some(calls) = calls_of(alloc, front)? else {
        return Ok(None);
    };
    let Some(told) = told_of(alloc, back)? else {
        return Ok(None);
    };
    if calls.len() == told.len() {
        Ok(Some(Shape::Tx { calls, told }))
    } else {
        Ok(None)
    }
}
