//! Lists of items.
ghost use Rattle.std.specs.Prelude.{◌≡◌, map, [], Ok, IfOk, OnOk};
ghost use Rattle.serde_json.specs.View.{view};
ghost use Rattle.json_values.specs.Gathering.{so_far};
ghost use Rattle.json_values.specs.Parts.{each, mapped, with_last};

use crate::fault::lower;
use crate::{Fault, FromJsonIn, Read};
use serde_json::Value;
use std::alloc::{AllocError, Global};

/// What was read of some items so far: all of their values, or the lowest fault of any.
#[derive(Drop)]
pub struct Gathered<T, F> {
    values: Vec<T>,
    fault: Option<F>,
}

impl<T: Drop, F: Fault> Gathered<T, F> {
    pub fn new(alloc: Global) -> Gathered<T, F>
        ensures { so_far result ≡ Ok [] }
    {
        Gathered {
            values: Vec::new(alloc),
            fault: None,
        }
    }

    /// Adds what was read of the next item.
    pub fn add(&mut self, value: Result<T, F>) -> Result<(), AllocError>
        ensures { OnOk result
            (so_far self.new ≡ with_last F.number (so_far self.old) value) }
    {
        match (value, self.fault) {
            (Ok(value), None) => self.values.push(value)?,
            (Ok(_), Some(_)) => {}
            (Err(fault), None) => self.fault = Some(fault),
            (Err(fault), Some(known)) => self.fault = Some(lower(known, fault)),
        }
        Ok(())
    }

    pub fn finish(self) -> Result<Vec<T>, F>
        ensures { mapped (λ v. v.items) result ≡ so_far self }
    {
        match self.fault {
            None => Ok(self.values),
            Some(fault) => Err(fault),
        }
    }
}

/// Reads all values, in their order.
pub fn each<T: FromJsonIn<F>, F: Fault>(alloc: Global, values: &[Value]) -> Read<Vec<T>, F>
    ensures { IfOk result (λ read. mapped (λ v. v.items) read
        ≡ each F.number T.reading (map view values.now)) }
{
    let mut gathered = Gathered::new(alloc);
    for value in values {
        let read = T::from_json_in(alloc, value)?;
        gathered.add(read)?;
    }
    Ok(gathered.finish())
}
