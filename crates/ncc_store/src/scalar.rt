//! What sums are made of.

ghost use Rattle.std.specs.Prelude.{◌≡◌, ◌++◌, ◌+ℤ◌, IfOk};
ghost use Rattle.ncc_store.specs.Scalar.{scalar, value_of, same, plus, sum_of, joined};
ghost use Rattle.ncc_store.specs.Props.{or_null};
ghost use Rattle.ncc_store.specs.Answers.{Gives};

use crate::fault::{RunError, RunFault};
use ncc_pack::{Memory, Text, Value};

/// What a sum can be.
#[derive(Debug, Drop)]
pub(crate) enum Scalar {
    Null,
    Bool(bool),
    Int(i64),
    Text(Text),
}

/// The scalar that a value is. Bytes, lists, dictionaries and nodes are none.
pub(crate) fn scalar_of(value: &Value) -> Result<Option<Scalar>, Memory>
    ensures { IfOk result (λ x. x ≡ scalar value.now) }
{
    match value {
        Value::Null => Ok(Some(Scalar::Null)),
        Value::Bool(truth) => Ok(Some(Scalar::Bool(*truth))),
        Value::Int(number) => Ok(Some(Scalar::Int(*number))),
        Value::Text(text) => Ok(Some(Scalar::Text(text.copy()?))),
        Value::Bytes(_) => Ok(None),
        Value::List(_) => Ok(None),
        Value::Dict(_) => Ok(None),
        Value::Node(_) => Ok(None),
    }
}

/// A scalar as a value.
pub(crate) fn into_value(scalar: Scalar) -> Value
    ensures { result ≡ value_of scalar }
{
    match scalar {
        Scalar::Null => Value::Null,
        Scalar::Bool(truth) => Value::Bool(truth),
        Scalar::Int(number) => Value::Int(number),
        Scalar::Text(text) => Value::Text(text),
    }
}

/// Says whether a stored value equals a scalar in kind and value. Null equals nothing.
pub(crate) fn equals(value: &Value, other: &Scalar) -> bool
    ensures { result ≡ same (or_null (scalar value.now)) other.now }
{
    match (value, other) {
        (Value::Bool(held), Scalar::Bool(truth)) => held == truth,
        (Value::Int(held), Scalar::Int(number)) => held == number,
        (Value::Text(held), Scalar::Text(text)) => held.as_str() == text.as_str(),
        _ => false,
    }
}

const MAX_TEXT: usize = 262_144;

/// Two texts joined.
fn joined(front: Text, back: &Text) -> Result<Scalar, RunError>
    ensures { Gives (λ x. x) result (joined (front ++ back.now)) }
{
    let mut text = front;
    if text.len() > MAX_TEXT || back.len() > MAX_TEXT - text.len() {
        return Err(RunError::Fault(RunFault::TooLong));
    }
    text.push_str(back.as_str())?;
    Ok(Scalar::Text(text))
}

/// Two integers added.
fn added(a: i64, b: i64) -> Result<Scalar, RunError>
    ensures { Gives (λ x. x) result (sum_of (a +ℤ b)) }
{
    match a.checked_add(b) {
        None => Err(RunError::Fault(RunFault::Overflow)),
        Some(sum) => Ok(Scalar::Int(sum)),
    }
}

/// `+` of two scalars.
pub(crate) fn plus(left: Scalar, right: Scalar) -> Result<Scalar, RunError>
    ensures { Gives (λ x. x) result (plus left right) }
{
    match (left, right) {
        (Scalar::Null, _) => Ok(Scalar::Null),
        (_, Scalar::Null) => Ok(Scalar::Null),
        (Scalar::Int(a), Scalar::Int(b)) => added(a, b),
        (Scalar::Text(a), Scalar::Text(b)) => joined(a, &b),
        _ => Err(RunError::Fault(RunFault::WrongKind)),
    }
}
