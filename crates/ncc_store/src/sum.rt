//! The value of a sum.

ghost use Rattle.std.specs.Prelude.{◌≡◌, IfOk};
ghost use Rattle.std.specs.Option.{option_copied};
ghost use Rattle.ncc_store.specs.Answers.{Gives};
ghost use Rattle.ncc_store.specs.Props.{at_key, prop};
ghost use Rattle.ncc_store.specs.Sum.{param, term, added, sum};
ghost use Rattle.ncc_store.specs.Bound.{props_in, IsReady};

use crate::fault::{RunError, RunFault};
use crate::node::StoredNode;
use crate::props::{Params, PropertyMap, value_at};
use crate::scalar::{Scalar, plus, scalar_of};
use ncc_cypher::{Expr, Term};
use ncc_pack::{Memory, Value};

/// The node whose properties a sum may name: none, one of the store, or one that is being changed.
#[derive(Drop)]
pub(crate) enum Bound<'n, 'd> {
    Free,
    Node(&'n StoredNode),
    PropertyMap(&'n PropertyMap<'d>),
}

/// The value at a key of the bound node.
fn held<'b>(bound: &'b Bound, key: &str) -> Option<&'b Value>
    requires { IsReady bound.now }
    ensures { option_copied result ≡ at_key key.now (props_in bound.now) }
{
    match bound {
        Bound::Free => None,
        Bound::Node(node) => value_at(node.props.as_slice(), key),
        Bound::PropertyMap(draft) => draft.value_at(key),
    }
}

/// A property of the bound node: null where it is missing.
#[tactic(auto, unfolding(crate::specs::Props::prop))]
fn prop(bound: &Bound, key: &str) -> Result<Scalar, Memory>
    requires { IsReady bound.now }
    ensures { IfOk result (λ x. x ≡ prop key.now (props_in bound.now)) }
{
    match held(bound, key) {
        None => Ok(Scalar::Null),
        Some(value) => match scalar_of(value)? {
            None => Ok(Scalar::Null),
            Some(scalar) => Ok(scalar),
        },
    }
}

/// A parameter.
fn param(params: &Params, name: &str) -> Result<Scalar, RunError>
    ensures { Gives (λ x. x) result (param (at_key name.now params.now)) }
{
    match params.value_at(name) {
        None => Err(RunError::Fault(RunFault::MissingParameter)),
        Some(value) => match scalar_of(value)? {
            None => Err(RunError::Fault(RunFault::WrongKind)),
            Some(scalar) => Ok(scalar),
        },
    }
}

fn term(params: &Params, bound: &Bound, next: &Term) -> Result<Scalar, RunError>
    requires { IsReady bound.now }
    ensures { Gives (λ x. x) result (term params.now (props_in bound.now) next.now) }
{
    match next {
        Term::Null => Ok(Scalar::Null),
        Term::Bool(truth) => Ok(Scalar::Bool(*truth)),
        Term::Int(number) => Ok(Scalar::Int(*number)),
        Term::Text(text) => Ok(Scalar::Text(text.copy()?)),
        Term::Param(name) => param(params, name.as_str()),
        Term::Prop(key) => Ok(prop(bound, key.as_str())?),
    }
}

/// The terms from left to right, added to a first one.
fn added(params: &Params, bound: &Bound, first: Scalar, terms: &[Term]) -> Result<Scalar, RunError>
    requires { IsReady bound.now }
    ensures { Gives (λ x. x) result (added params.now (props_in bound.now) first terms.now) }
{
    let mut total = first;
    for next in terms {
        let value = term(params, bound, next)?;
        total = plus(total, value)?;
    }
    Ok(total)
}

/// The value of a sum.
#[tactic(auto, unfolding(crate::specs::Sum::terms))]
pub(crate) fn sum(params: &Params, bound: &Bound, expr: &Expr) -> Result<Scalar, RunError>
    requires { IsReady bound.now }
    ensures { Gives (λ x. x) result (sum params.now (props_in bound.now) expr.now) }
{
    match expr.terms.as_slice().split_first() {
        None => Ok(Scalar::Null),
        Some((first, rest)) => {
            let first = term(params, bound, first)?;
            added(params, bound, first, rest)
        }
    }
}
