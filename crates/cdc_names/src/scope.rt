ghost use Rattle.std.specs.Prelude.{◌≡◌, [], map, is_none, IfOk, OnOk};
ghost use Rattle.cdc_tree.specs.Units.{unit};
ghost use Rattle.cdc_names.specs.Declarations.{plain_declaration};
ghost use Rattle.cdc_names.specs.Scopes.{sort_of, sorts_from, value_in, known_after, values_from, bare, scope_of, plain_scope};

use crate::constants::constant;
use crate::declaration::Declaration;
use crate::declared::{add, declare};
use crate::name_use::NameUse;
use crate::table::Table;
use crate::walk;
use cdc_base::List;
use cdc_tree::UnitText;
use std::alloc::{AllocError, Global};

/// What a name is declared as.
#[derive(Clone, Copy, Debug, PartialEq, Eq, Drop)]
pub enum Sort {
    Scalar,
    /// With its number of dimensions.
    Array(usize),
    Parameter,
}

/// What a unit declares, and its uses of names in the order of its text.
#[derive(Drop)]
pub struct Scope<'a> {
    /// Whether names that begin with I to N are integers without a declaration
    /// (ISO/IEC 1539:1991, section 5.3).
    pub implicit: bool,
    pub declarations: List<Declaration<'a>>,
    /// The first declaration of each name.
    pub sorts: Table<'a, Sort>,
    /// The PARAMETERs that have a value.
    pub values: Table<'a, i64>,
    pub uses: List<NameUse<'a>>,
}

fn sort_of(d: &Declaration) -> Sort
    ensures { result ≡ sort_of (plain_declaration d.now) }
{
    if d.value.is_some() {
        return Sort::Parameter;
    }
    let n = d.bounds.len();
    if n == 0 {
        return Sort::Scalar;
    }
    Sort::Array(n)
}

fn value_in(values: &Table<i64>, d: &Declaration) -> Option<i64>
    ensures { result ≡ value_in values.now (plain_declaration d.now) }
{
    match d.value {
        None => None,
        Some(t) => constant(values, t),
    }
}

/// Adds what a declaration makes known.
pub fn learn<'a>(values: &mut Table<'a, i64>, d: &Declaration<'a>) -> Result<(), AllocError>
    ensures { OnOk result (values.new ≡ known_after values.old (plain_declaration d.now)) }
{
    match value_in(values, d) {
        None => Ok(()),
        Some(x) => values.add(d.named.name.as_slice(), x),
    }
}

fn sort_and_learn<'a>(
    sorts: &mut Table<'a, Sort>,
    values: &mut Table<'a, i64>,
    ds: &[Declaration<'a>],
) -> Result<(), AllocError>
    ensures sorts { OnOk result (sorts.new ≡ sorts_from sorts.old (map plain_declaration ds.now)) }
    ensures values { OnOk result (values.new ≡ values_from values.old (map plain_declaration ds.now)) }
{
    for d in ds {
        sorts.add(d.named.name.as_slice(), sort_of(d))?;
        learn(values, d)?;
    }
    Ok(())
}

impl<'a> Scope<'a> {
    fn new(alloc: Global, implicit: bool) -> Scope<'a>
        ensures { plain_scope result ≡ bare implicit }
    {
        Scope {
            implicit,
            declarations: List::new(alloc),
            sorts: Table::new(alloc),
            values: Table::new(alloc),
            uses: List::new(alloc),
        }
    }

    fn fill(&mut self, u: &'a UnitText) -> Result<(), AllocError>
        requires { plain_scope self.old ≡ bare (is_none (unit u.now).none) }
        ensures { OnOk result (plain_scope self.new ≡ scope_of (unit u.now)) }
    {
        declare(&mut self.declarations, u.declarations.as_slice())?;
        let ds = self.declarations.as_slice();
        sort_and_learn(&mut self.sorts, &mut self.values, ds)?;
        walk::unit(&mut self.uses, u)
    }
}

/// What a unit declares, and its uses of names.
pub fn scope_of(alloc: Global, u: &UnitText) -> Result<Scope<'_>, AllocError>
    ensures { IfOk result (λ s. plain_scope s ≡ scope_of (unit u.now)) }
{
    let mut scope = Scope::new(alloc, u.none.is_none());
    scope.fill(u)?;
    Ok(scope)
}

/// The scopes of all units, in order.
pub fn scopes_of(alloc: Global, units: &[UnitText]) -> Result<List<Scope<'_>>, AllocError>
    ensures { IfOk result (λ ss. map plain_scope ss ≡ map scope_of (map unit units.now)) }
{
    let mut scopes = List::new(alloc);
    for u in units {
        let scope = scope_of(alloc, u)?;
        add(&mut scopes, scope)?;
    }
    Ok(scopes)
}
