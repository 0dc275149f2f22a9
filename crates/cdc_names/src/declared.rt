ghost use Rattle.std.specs.Prelude.{◌≡◌, [], ◌∷◌, ◌++◌, None, Some, map, option_map, IfOk, OnOk};
ghost use Rattle.std.specs.Option.{option_copied};
ghost use Rattle.cdc_tree.specs.Plain.{plain};
ghost use Rattle.cdc_tree.specs.Forms.{bound, declared, define, form, statement};
ghost use Rattle.cdc_names.specs.Declarations.{declares, variable, parameter, declared_by, declared_in, plain_declaration};

use crate::declaration::Declaration;
use cdc_base::List;
use cdc_tree::{Declared, Define, Form, Statement};
use std::alloc::{AllocError, Global};

/// Adds an item; one that finds no memory is thrown away.
pub fn add<T: Drop>(items: &mut List<T>, item: T) -> Result<(), AllocError>
    ensures { OnOk result (items.new ≡ items.old ++ item ∷ []) }
{
    match items.push(item) {
        Ok(()) => Ok(()),
        Err(_) => Err(AllocError),
    }
}

fn variables<'a>(out: &mut List<Declaration<'a>>, items: &'a [Declared]) -> Result<(), AllocError>
    ensures { OnOk result (map plain_declaration out.new ≡ map plain_declaration out.old ++ map variable (map declared items.now)) }
{
    for item in items {
        let declaration = Declaration {
            named: &item.name,
            bounds: item.bounds.as_slice(),
            value: None,
        };
        add(out, declaration)?;
    }
    Ok(())
}

fn parameters<'a>(out: &mut List<Declaration<'a>>, items: &'a [Define]) -> Result<(), AllocError>
    ensures { OnOk result (map plain_declaration out.new ≡ map plain_declaration out.old ++ map parameter (map define items.now)) }
{
    for item in items {
        let declaration = Declaration {
            named: &item.name,
            bounds: &[],
            value: Some(&item.value),
        };
        add(out, declaration)?;
    }
    Ok(())
}

fn declared_by<'a>(out: &mut List<Declaration<'a>>, f: &'a Form) -> Result<(), AllocError>
    ensures { OnOk result (map plain_declaration out.new ≡ map plain_declaration out.old ++ declared_by (form f.now)) }
{
    match f {
        Form::Integer(items) => variables(out, items.as_slice()),
        Form::Parameter(items) => parameters(out, items.as_slice()),
        _ => Ok(()),
    }
}

/// Adds the names that statements declare, in order.
pub(crate) fn declare<'a>(
    out: &mut List<Declaration<'a>>,
    statements: &'a [Statement],
) -> Result<(), AllocError>
    ensures { OnOk result (map plain_declaration out.new ≡ map plain_declaration out.old ++ declared_in (map statement statements.now)) }
{
    for s in statements {
        declared_by(out, &s.form)?;
    }
    Ok(())
}

/// The names that statements declare, in order.
pub fn declarations(
    alloc: Global,
    statements: &[Statement],
) -> Result<List<Declaration<'_>>, AllocError>
    ensures { IfOk result (λ ds. map plain_declaration ds ≡ declared_in (map statement statements.now)) }
{
    let mut out = List::new(alloc);
    declare(&mut out, statements)?;
    Ok(out)
}
