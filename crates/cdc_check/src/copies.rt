// Copies of bytes and of dimensions.
ghost use Rattle.std.specs.Prelude.{◌≡◌, IfOk};

use cdc_base::List;
use cdc_names::add;
use cdc_prog::Dim;
use std::alloc::{AllocError, Global};

/// A list of these bytes.
pub fn bytes_of(alloc: Global, bytes: &[u8]) -> Result<List<u8>, AllocError>
    ensures { IfOk result (λ l. l ≡ bytes.now) }
{
    let mut copy = List::new(alloc);
    for b in bytes {
        add(&mut copy, *b)?;
    }
    Ok(copy)
}

/// A list of these dimensions.
pub fn dims_of(alloc: Global, dims: &[Dim]) -> Result<List<Dim>, AllocError>
    ensures { IfOk result (λ l. l ≡ dims.now) }
{
    let mut copy = List::new(alloc);
    for d in dims {
        add(&mut copy, *d)?;
    }
    Ok(copy)
}
