//! Steps over a store. A text has two parts with an empty line between them: the steps that make the store, and those that
//! are run over it, one in a line.

use ncc_cypher::ParseError;
use ncc_pack::{Sequence, dict_fits};
use ncc_store::{Overlay, Step, Steps, Store};
use std::alloc::{AllocError, Global};

/// Adds the step of a line, which has no parameters.
fn push_step(alloc: Global, source: &str, steps: &mut Steps) -> Result<(), ParseError> {
    let params = Sequence::new(alloc);
    if dict_fits(&params) {
        steps.push(Step::of(alloc, source, params)?)?;
    }
    Ok(())
}

/// The steps of a text, one in a line.
pub(crate) fn steps_of(alloc: Global, text: &str) -> Result<Steps, ParseError> {
    let mut steps = Sequence::new(alloc);
    for line in text.split('\n') {
        if !line.is_empty() {
            push_step(alloc, line, &mut steps)?;
        }
    }
    Ok(steps)
}

/// The store that steps make of an empty one; without their changes where they meet a fault.
fn store_of(alloc: Global, steps: &Steps) -> Result<Store, AllocError> {
    let mut store = Store::new(alloc)?;
    if let Ok(ran) = Overlay::run(alloc, &store, steps) {
        store.put_all(&ran.delta)?;
    }
    Ok(store)
}

/// The number of the passes in which all steps of the second part ran without a fault.
pub(crate) fn run_often(alloc: Global, text: &str, times: u32) -> Result<u64, ParseError> {
    let Some((front, back)) = text.split_once("\n\n") else {
        return Ok(0);
    };
    let store = store_of(alloc, &steps_of(alloc, front)?)?;
    let steps = steps_of(alloc, back)?;
    let mut sum = 0u64;
    for _ in 0..times {
        if Overlay::run(alloc, &store, &steps).is_ok() {
            sum = sum.saturating_add(1);
        }
    }
    Ok(sum)
}
