ghost use Rattle.std.specs.Prelude.{◌≡◌, ◌+◌, []};
ghost use Rattle.cdc_check.specs.Threads.{next, numbered};
ghost use Rattle.cdc_check.specs.Meanings.{surroundings, slot_from, slot_or, meaning_of, var_in, var_of, sites_after, site_of, reference};

use cdc_base::Place;
use cdc_names::Table;
use cdc_prog::{Ref, Var};
use cdc_tree::Named;
use std::marker::Model;

/// What a name stands for in its unit.
#[derive(Clone, Copy, Debug, PartialEq, Eq, Drop)]
pub enum Meaning {
    Variable(Var),
    /// The value of a PARAMETER.
    Number(i64),
}

/// What names stand for at a place of a unit: the names of the unit, and the index and private
/// names of the DOALL around the place, where there is one.
#[derive(Drop)]
pub struct Names<'e, 'a> {
    pub table: &'e Table<'a, Meaning>,
    pub index: Option<&'e Named>,
    pub privates: &'e [Named],
}

impl<'e, 'a> Model for Names<'e, 'a> {
    ghost use Rattle.std.specs.Option.{option_copied};
    ghost use Rattle.cdc_check.specs.Meanings.{Surroundings, surroundings, slots_of};

    ghost Value = { Surroundings };

    ghost view = { λ n. surroundings n.table.now (slots_of (option_copied n.index) n.privates.now) };
}

/// The next number; the last one of the type stays.
pub fn next(k: u32) -> u32
    ensures { result ≡ next k }
{
    if k < 4_294_967_295 { k + 1 } else { k }
}

/// A number of things, or the last number of the type.
pub fn numbered(n: usize) -> u32
    ensures { result ≡ numbered n }
{
    if n < 4_294_967_295 {
        n as u32
    } else {
        4_294_967_295
    }
}

fn private_slot(privates: &[Named], name: &[u8]) -> Option<u32>
    ensures { result ≡ slot_from 1 name.now privates.now }
{
    let mut k = 1;
    for p in privates {
        if name == p.name.as_slice() {
            return Some(k);
        }
        k = next(k);
    }
    None
}

impl<'e, 'a> Names<'e, 'a> {
    /// The names of a unit outside its DOALL loops.
    pub fn of_unit(table: &'e Table<'a, Meaning>) -> Names<'e, 'a>
        ensures { result ≡ surroundings table.now [] }
    {
        Names {
            table,
            index: None,
            privates: &[],
        }
    }

    fn slot(&self, name: &[u8]) -> Option<u32>
        ensures { result ≡ slot_from 0 name.now self.now.slots }
    {
        match self.index {
            None => None,
            Some(index) => {
                if name == index.name.as_slice() {
                    return Some(0);
                }
                private_slot(self.privates, name)
            }
        }
    }

    /// What a name stands for.
    pub fn meaning(&self, name: &[u8]) -> Option<Meaning>
        ensures { result ≡ meaning_of self.now name.now }
    {
        match self.slot(name) {
            Some(k) => Some(Meaning::Variable(Var::Slot(k))),
            None => self.table.get(name),
        }
    }

    /// The variable that a name stands for.
    pub fn variable(&self, named: &Named) -> Var
        ensures { result ≡ var_of self.now named.now }
    {
        variable_in(self.meaning(named.name.as_slice()))
    }
}

/// The variable of a meaning.
pub fn variable_in(meaning: Option<Meaning>) -> Var
    ensures { result ≡ var_in meaning }
{
    match meaning {
        Some(Meaning::Variable(v)) => v,
        Some(Meaning::Number(_)) => Var::Object(0),
        None => Var::Object(0),
    }
}

fn site(var: Var, sites: &mut u32) -> u32
    ensures site { result ≡ site_of var sites.old }
    ensures sites { sites.new ≡ sites_after var sites.old }
{
    match var {
        Var::Slot(_) => 0,
        _ => {
            *sites = next(*sites);
            *sites
        }
    }
}

/// An access of a variable, with the next site.
pub fn reference(var: Var, place: Place, sites: &mut u32) -> Ref
    ensures made { result ≡ reference var place sites.old }
    ensures sites { sites.new ≡ sites_after var sites.old }
{
    Ref {
        var,
        site: site(var, sites),
        place,
    }
}
