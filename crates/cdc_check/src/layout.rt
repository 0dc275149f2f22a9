ghost use Rattle.std.specs.Prelude.{◌≡◌, ◌*◌, IfOk};
ghost use Rattle.cdc_prog.specs.declared.program.Kind.TheVariants.{Words};
ghost use Rattle.cdc_prog.specs.Limits.{limit};
ghost use Rattle.cdc_prog.specs.Data.{size_of};
ghost use Rattle.cdc_check.specs.Objects.{capped};
ghost use Rattle.cdc_check.specs.Layout.{laid_at, layout};
ghost use Rattle.cdc_check.specs.Refusals.{Answers};

use crate::copies::{bytes_of, dims_of};
use crate::progress::Shape;
use crate::refusal::CheckRefusal;
use cdc_base::List;
use cdc_names::add;
use cdc_prog::{Dim, Kind, Object, limit};
use std::alloc::{AllocError, Global};

/// The words of memory that a program may have.
pub fn words_limit() -> u32
    ensures { result ≡ limit Words }
{
    limit(Kind::Words) as u32
}

fn times(a: u32, b: u32) -> u32
    ensures { result ≡ capped (a * b) }
{
    let most = words_limit();
    let product = a.saturating_mul(b);
    if product > most { most + 1 } else { product }
}

fn size(dims: &[Dim]) -> u32
    ensures { result ≡ capped (size_of dims.now) }
{
    let mut n = 1;
    for d in dims {
        n = times(n, d.extent);
    }
    n
}

fn laid(alloc: Global, base: u32, words: u32, shape: &Shape) -> Result<Object, AllocError>
    ensures { IfOk result (λ o. o ≡ laid_at base words shape.now) }
{
    let name = bytes_of(alloc, shape.name.as_slice())?;
    let dims = dims_of(alloc, shape.dims.as_slice())?;
    Ok(Object {
        unit: shape.unit,
        name,
        dims,
        base,
        words,
    })
}

/// Objects one after another from word 0, and their words; refused where these are over their
/// limit.
pub fn layout(alloc: Global, shapes: &[Shape]) -> Result<(List<Object>, u32), CheckRefusal>
    ensures { Answers (λ r. r) result (layout shapes.now) }
{
    let mut objects = List::new(alloc);
    let mut next = 0;
    for shape in shapes {
        let words = size(shape.dims.as_slice());
        if words > words_limit() - next {
            return Err(CheckRefusal::TooMany(Kind::Words));
        }
        let object = laid(alloc, next, words, shape)?;
        add(&mut objects, object)?;
        next += words;
    }
    Ok((objects, next))
}
