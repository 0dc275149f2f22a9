// The flow graph of a unit.
ghost use Rattle.std.specs.Prelude.{[], ◌<◌, length, IfOk};
ghost use Rattle.cdc_prog.specs.Translation.{program_of};
ghost use Rattle.cdc_prog.specs.Units.{body_of};
ghost use Rattle.cdc_path.specs.Courses.{unit_course};
ghost use Rattle.cdc_flow.specs.Flow.{IsFlow};

use crate::builder::Builder;
use crate::calls::count_units;
use crate::graph::FlowGraph;
use crate::statements::add_statements;
use cdc_base::NoMemory;
use cdc_prog::Program;
use std::alloc::Global;

/// The flow graph of a unit, by its number from 0: the sites of its references, the entries and exits of its DOALLs and its
/// CALLs, each once, and plain points where control divides and meets.
///
/// # Errors
///
/// Memory ran out.
pub fn flow(alloc: Global, program: &Program, unit: u32) -> Result<FlowGraph, NoMemory>
    requires { unit < length program.now.units }
    ensures { IfOk result (λ g. IsFlow (unit_course [] (body_of (program_of program.now) unit)) g) }
{
    let units = program.units.as_slice();
    let mut calls = count_units(&units[..unit as usize])?;
    let mut g = Builder::new(alloc)?;
    let body = units[unit as usize].body.as_slice();
    add_statements(alloc, &mut g, &mut calls, body)?;
    Ok(FlowGraph {
        points: g.points,
        edges: g.edges,
        start: 0,
        end: g.at,
    })
}
