//! The rows that RETURN gives.

ghost use Rattle.std.specs.Prelude.{◌≡◌, ◌≤◌, ◌∷◌, [], pos, IfOk, IfSome, is_some, length, map};
ghost use Rattle.std.specs.Option.{option_copied};
ghost use Rattle.std.specs.List.{All};
ghost use Rattle.ncc_pack.specs.declared.value.Value.TheVariants as value;
ghost use Rattle.ncc_store.specs.Answers.{Gives};
ghost use Rattle.ncc_store.specs.Rows.{whole, item, items, row, row_keeps, row_len, rows, rows_keep, returned, max_row};
ghost use Rattle.ncc_store.specs.Bound.{IsRow};

use crate::fault::{RunError, RunFault};
use crate::node::StoredNode;
use crate::props::Params;
use crate::scalar::into_value;
use crate::sum::{Bound, sum};
use ncc_cypher::{Item, Items, Tail};
use ncc_pack::{Memory, NodeValue, Rows, Sequence, Value, Values, values_fit, values_len};
use std::alloc::Global;

/// A node as a value: its label in a list, and its properties. Without a node it is null.
fn whole(alloc: Global, node: Option<&StoredNode>) -> Result<Value, Memory>
    ensures { IfOk result (λ x. x ≡ whole (option_copied node.entry)) }
{
    match node {
        None => Ok(Value::Null),
        Some(node) => {
            let mut labels = Sequence::new(alloc);
            labels.push(Value::Text(node.label.copy()?))?;
            Ok(Value::Node(NodeValue {
                id: node.id,
                labels,
                props: node.props.copy()?,
            }))
        }
    }
}

fn item(
    alloc: Global,
    params: &Params,
    node: Option<&StoredNode>,
    next: &Item,
) -> Result<Value, RunError>
    requires { IsRow (option_copied node) }
    ensures { Gives (λ x. x) result (item params.now (option_copied node.entry) next.now) }
{
    match next {
        Item::Whole => Ok(whole(alloc, node)?),
        Item::Sum(expr) => {
            let bound = match node {
                None => Bound::Free,
                Some(node) => Bound::Node(node),
            };
            Ok(into_value(sum(params, &bound, expr)?))
        }
    }
}

/// The items from left to right.
fn items(
    alloc: Global,
    params: &Params,
    node: Option<&StoredNode>,
    list: &Items,
) -> Result<Values, RunError>
    requires { IsRow (option_copied node) }
    ensures { Gives (λ x. x) result (items params.now (option_copied node.entry) list.now) }
{
    let mut values = Sequence::new(alloc);
    for next in list.as_slice() {
        values.push(item(alloc, params, node, next)?)?;
    }
    Ok(values)
}

/// How many bytes the short spelling of one row may have, as a list.
pub const MAX_ROW_BYTES: u64 = 1_048_000;

/// How many rows one step may give.
pub const MAX_ROWS: u64 = 10_000;

/// How many bytes the short spellings of one step's rows may have in all, each as a list.
pub const MAX_ROWS_BYTES: u64 = 16_777_216;

/// The bytes of the short spelling of a row as a list, where the row fits and is short enough.
fn kept_len(row: &Values) -> Option<u64>
    ensures keeps { is_some result ≡ row_keeps row.now }
    ensures len { IfSome result (λ n. (n ≡ row_len row.now) × (n ≤ max_row)) }
{
    if !values_fit(row) {
        return None;
    }
    let len = values_len(row);
    if len > MAX_ROW_BYTES {
        return None;
    }
    Some(len)
}

/// Says whether rows are such as one step may give: each fits as a list and has a short spelling of at most
/// `MAX_ROW_BYTES`, there are at most `MAX_ROWS`, and their spellings have at most `MAX_ROWS_BYTES` in all. It takes a
/// time that grows with the rows.
pub fn rows_keep(rows: &Rows) -> bool
    ensures keeps { result ≡ rows_keep rows.now }
{
    if rows.len() as u64 > MAX_ROWS {
        return false;
    }
    let mut bytes: u64 = 0;
    for row in rows.as_slice() {
        match kept_len(row) {
            None => return false,
            Some(len) => bytes += len,
        }
    }
    bytes <= MAX_ROWS_BYTES
}

/// One row, which has to fit and to be short enough, and the bytes of its short spelling as a list.
fn row(
    alloc: Global,
    params: &Params,
    node: Option<&StoredNode>,
    list: &Items,
) -> Result<(Values, u64), RunError>
    requires { IsRow (option_copied node) }
    ensures row { Gives (λ r. r.0) result (row params.now list.now (option_copied node.entry)) }
    ensures len { IfOk result (λ r. (r.1 ≡ row_len r.0) × (r.1 ≤ max_row)) }
{
    let values = items(alloc, params, node, list)?;
    match kept_len(&values) {
        None => Err(RunError::Fault(RunFault::TooLong)),
        Some(len) => Ok((values, len)),
    }
}

/// The rows one by one.
fn rows(
    alloc: Global,
    params: &Params,
    list: &Items,
    nodes: &[Option<&StoredNode>],
) -> Result<Rows, RunError>
    requires { All (λ n. IsRow (option_copied n)) nodes.now }
    ensures { Gives (λ rs. rs) result (rows params.now list.now 0 0 (map option_copied nodes.now)) }
{
    let mut rows = Sequence::new(alloc);
    let mut count: u64 = 0;
    let mut bytes: u64 = 0;
    for node in nodes {
        let (values, len) = row(alloc, params, *node, list)?;
        count += 1;
        bytes += len;
        if count > MAX_ROWS || bytes > MAX_ROWS_BYTES {
            return Err(RunError::Fault(RunFault::TooManyRows));
        }
        rows.push(values)?;
    }
    Ok(rows)
}

/// One row with the number of rows.
fn counted(alloc: Global, nodes: &[Option<&StoredNode>]) -> Result<Rows, Memory>
    ensures { IfOk result (λ rs. rs ≡ (value.Int (pos (length nodes.now)) ∷ []) ∷ []) }
{
    let mut values = Sequence::new(alloc);
    values.push(Value::Int(nodes.len() as i64))?;
    let mut rows = Sequence::new(alloc);
    rows.push(values)?;
    Ok(rows)
}

/// What a statement returns over its rows.
pub(crate) fn returned(
    alloc: Global,
    params: &Params,
    tail: &Tail,
    nodes: &[Option<&StoredNode>],
) -> Result<Rows, RunError>
    requires { All (λ n. IsRow (option_copied n)) nodes.now }
    ensures { Gives (λ rs. rs) result (returned params.now tail.now (map option_copied nodes.now)) }
{
    match tail {
        Tail::Nothing => Ok(Sequence::new(alloc)),
        Tail::Count => Ok(counted(alloc, nodes)?),
        Tail::Items(list) => rows(alloc, params, list, nodes),
    }
}
