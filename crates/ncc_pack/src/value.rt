//! Values of PackStream.

ghost use Rattle.std.specs.Prelude.{◌≡◌, ◌↔◌, IfOk, IsTrue};
ghost use Rattle.std.specs.Map.{lookup};
ghost use Rattle.std.specs.Option.{option_copied};
ghost use Rattle.std.specs.Str.{bytes_eq};
ghost use Rattle.ncc_pack.specs.Texts.{is_text, texts_alone};

use crate::bytes::Bytes;
use crate::element::{Compared, Copied};
use crate::sequence::Sequence;
use crate::text::Text;
use std::alloc::AllocError;

/// A list of values. A contract sees the list of them.
pub type Values = Sequence<Value>;

/// The pairs of a dictionary, in their order. A contract sees the list of pairs of a key's bytes and a value.
pub type Dict = Sequence<(Text, Value)>;

/// A value of PackStream version 1, without its floats (section "Data types").
#[cycle(value)]
#[derive(Debug, Drop)]
pub enum Value {
    /// The absent value.
    Null,
    /// A truth value.
    Bool(bool),
    /// An integer of 64 bits.
    Int(i64),
    /// Bytes.
    Bytes(Bytes),
    /// A text in UTF-8.
    Text(Text),
    /// A list of values of any kinds.
    List(Values),
    /// A dictionary: texts as keys, each once, in an order that is kept.
    Dict(Dict),
    /// A node of a graph.
    Node(NodeValue),
}

/// A node of a graph, the structure with the tag `4E` (Bolt, "Structure semantics", Node).
#[cycle(value)]
#[derive(Debug, Drop)]
pub struct NodeValue {
    /// The number of the node.
    pub id: i64,
    /// Its labels, a list of texts.
    pub labels: Values,
    /// Its properties.
    pub props: Dict,
}

/// The rows of an answer, each a list of values. A contract sees the list of them.
pub type Rows = Sequence<Values>;

impl Sequence<(Text, Value)> {
    /// The value at a key: that of the first pair that has the key. It takes a time that grows with the number of pairs,
    /// and no memory.
    pub fn get(&self, key: &str) -> Option<&Value>
        ensures found { option_copied result ≡ lookup (bytes_eq key.now) self.now }
    {
        for pair in self.as_slice() {
            if pair.0.as_str() == key {
                return Some(&pair.1);
            }
        }
        None
    }
}

impl Sequence<Value> {
    /// Says whether every value is a text, as the labels of a node and the addresses of members are. It takes no memory.
    pub fn texts_alone(&self) -> bool
        ensures exact { result ≡ texts_alone self.now }
    {
        for value in self.as_slice() {
            if !value.is_text() {
                return false;
            }
        }
        true
    }
}

#[cycle(copies)]
fn copied_values(values: &Values) -> Result<Values, AllocError>
    ensures { IfOk result (λ copy. copy ≡ values.now) }
{
    let mut copy = Sequence::with_capacity(values.allocator(), values.len())?;
    for value in values.as_slice() {
        copy.push(value.copy()?)?;
    }
    Ok(copy)
}

#[cycle(copies)]
fn copied_dict(dict: &Dict) -> Result<Dict, AllocError>
    ensures { IfOk result (λ copy. copy ≡ dict.now) }
{
    let mut copy = Sequence::with_capacity(dict.allocator(), dict.len())?;
    for pair in dict.as_slice() {
        let key = pair.0.copy()?;
        let value = pair.1.copy()?;
        copy.push((key, value))?;
    }
    Ok(copy)
}

impl NodeValue {
    /// An equal node, on the same allocators.
    #[cycle(copies)]
    pub fn copy(&self) -> Result<NodeValue, AllocError>
        ensures equal { IfOk result (λ copy. copy ≡ self.now) }
    {
        Ok(NodeValue {
            id: self.id,
            labels: copied_values(&self.labels)?,
            props: copied_dict(&self.props)?,
        })
    }

    /// Says whether two nodes are equal. It takes no memory.
    #[cycle(comparing)]
    pub fn equals(&self, other: &NodeValue) -> bool
        ensures exact { IsTrue result ↔ (self.now ≡ other.now) }
    {
        self.id == other.id
            && equal_values(&self.labels, &other.labels)
            && equal_dicts(&self.props, &other.props)
    }
}

impl Value {
    /// An equal value, on the same allocators.
    #[cycle(copies)]
    pub fn copy(&self) -> Result<Value, AllocError>
        ensures equal { IfOk result (λ copy. copy ≡ self.now) }
    {
        match self {
            Value::Null => Ok(Value::Null),
            Value::Bool(truth) => Ok(Value::Bool(*truth)),
            Value::Int(number) => Ok(Value::Int(*number)),
            Value::Bytes(bytes) => Ok(Value::Bytes(bytes.copy()?)),
            Value::Text(text) => Ok(Value::Text(text.copy()?)),
            Value::List(values) => Ok(Value::List(copied_values(values)?)),
            Value::Dict(dict) => Ok(Value::Dict(copied_dict(dict)?)),
            Value::Node(node) => Ok(Value::Node(node.copy()?)),
        }
    }

    /// Says whether the value is a text. It takes no memory.
    pub fn is_text(&self) -> bool
        ensures exact { result ≡ is_text self.now }
    {
        match self {
            Value::Text(_) => true,
            Value::Null => false,
            Value::Bool(_) => false,
            Value::Int(_) => false,
            Value::Bytes(_) => false,
            Value::List(_) => false,
            Value::Dict(_) => false,
            Value::Node(_) => false,
        }
    }

    /// Says whether two values are equal: of one kind, and equal item by item in their order. It takes no memory.
    #[cycle(comparing)]
    pub fn equals(&self, other: &Value) -> bool
        ensures exact { IsTrue result ↔ (self.now ≡ other.now) }
    {
        match (self, other) {
            (Value::Null, Value::Null) => true,
            (Value::Bool(a), Value::Bool(b)) => a == b,
            (Value::Int(a), Value::Int(b)) => a == b,
            (Value::Bytes(a), Value::Bytes(b)) => a.as_slice() == b.as_slice(),
            (Value::Text(a), Value::Text(b)) => a.as_str() == b.as_str(),
            (Value::List(a), Value::List(b)) => equal_values(a, b),
            (Value::Dict(a), Value::Dict(b)) => equal_dicts(a, b),
            (Value::Node(a), Value::Node(b)) => a.equals(b),
            _ => false,
        }
    }
}

#[cycle(comparing)]
fn equal_values(values: &Values, other: &Values) -> bool
    ensures { IsTrue result ↔ (values.now ≡ other.now) }
{
    if values.len() != other.len() {
        return false;
    }
    let others = other.as_slice();
    for (i, value) in values.as_slice().iter().enumerate() {
        if !value.equals(&others[i]) {
            return false;
        }
    }
    true
}

#[cycle(comparing)]
fn equal_dicts(dict: &Dict, other: &Dict) -> bool
    ensures { IsTrue result ↔ (dict.now ≡ other.now) }
{
    if dict.len() != other.len() {
        return false;
    }
    let others = other.as_slice();
    for (i, pair) in dict.as_slice().iter().enumerate() {
        if pair.0.as_str() != others[i].0.as_str() || !pair.1.equals(&others[i].1) {
            return false;
        }
    }
    true
}

impl Copied for NodeValue {
    fn copy(&self) -> Result<NodeValue, AllocError> {
        NodeValue::copy(self)
    }
}

impl Copied for Value {
    fn copy(&self) -> Result<Value, AllocError> {
        Value::copy(self)
    }
}

impl Compared for NodeValue {
    fn equals(&self, other: &NodeValue) -> bool {
        NodeValue::equals(self, other)
    }
}

impl Compared for Value {
    fn equals(&self, other: &Value) -> bool {
        Value::equals(self, other)
    }
}
