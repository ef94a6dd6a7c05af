//! A list whose elements change.

ghost use Rattle.std.specs.Prelude.{◌≡◌};

use ncc_pack::Sequence;
use std::mem;

/// The elements of a list; none are left in it. It takes no memory.
pub(crate) fn taken<T>(list: &mut Sequence<T>) -> Vec<T>
    ensures same { result.items ≡ list.old }
{
    let none = Sequence::new(list.allocator());
    mem::replace(list, none).into_vec()
}
