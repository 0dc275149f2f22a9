use crate::instr::Step;
use cdc_base::List;
use cdc_prog::{Dim, Object};

/// The code of a program, with what its run takes of the program and of its marks.
#[derive(Debug, Drop)]
pub struct Code {
    /// The instructions of the units, in the order of the units.
    pub steps: List<Step>,
    /// The place of the first instruction of each unit.
    pub starts: List<u32>,
    /// The main program, by its number among the units from 0.
    pub main: u32,
    /// For each unit the dimensions of each of its dummies in order.
    pub shapes: List<List<List<Dim>>>,
    pub objects: List<Object>,
    /// The texts of PRINT items, in order of appearance.
    pub texts: List<List<u8>>,
    /// For each DOALL in order the objects that the epoch before it may write, ascending.
    pub entries: List<List<u32>>,
    /// For each DOALL in order the objects that its iterations may write, ascending.
    pub exits: List<List<u32>>,
    /// The words of memory that the objects take.
    pub words: u32,
}
