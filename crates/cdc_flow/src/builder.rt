// A flow graph that grows point by point.
ghost use Rattle.std.specs.Prelude.{◌≡◌, [], ◌∷◌, ◌++◌, IfOk, OnOk};
ghost use Rattle.cdc_path.specs.declared.point.Point.TheVariants.{Plain};
ghost use Rattle.cdc_flow.specs.Built.{edge, beginning, linked, pointed, moved, meeting, met};

use crate::graph::Edge;
use cdc_base::{List, NoMemory};
use cdc_path::Point;
use std::alloc::Global;

/// The points and edges so far, and the point after which the next one comes.
#[derive(Drop)]
pub struct Builder {
    pub points: List<Point>,
    pub edges: List<Edge>,
    pub at: u32,
}

fn push<T: Drop>(items: &mut List<T>, item: T) -> Result<(), NoMemory>
    ensures { OnOk result (items.new ≡ items.old ++ item ∷ []) }
{
    match items.push(item) {
        Ok(()) => Ok(()),
        Err(_) => Err(NoMemory),
    }
}

impl Builder {
    /// One plain point.
    ///
    /// # Errors
    ///
    /// Want of memory.
    pub fn new(alloc: Global) -> Result<Builder, NoMemory>
        ensures { IfOk result (λ b. b ≡ beginning) }
    {
        let mut points = List::new(alloc);
        push(&mut points, Point::Plain)?;
        Ok(Builder {
            points,
            edges: List::new(alloc),
            at: 0,
        })
    }

    /// Adds an edge.
    ///
    /// # Errors
    ///
    /// Want of memory.
    pub fn link(&mut self, from: u32, to: u32) -> Result<(), NoMemory>
        ensures { OnOk result (self.new ≡ linked from to self.old) }
    {
        push(&mut self.edges, Edge { from, to })
    }

    /// Adds a point after the last one.
    ///
    /// # Errors
    ///
    /// Want of memory; so also where its number does not fit 32 bits: that many points need more memory than there is.
    pub fn point(&mut self, point: Point) -> Result<(), NoMemory>
        ensures { OnOk result (self.new ≡ pointed point self.old) }
    {
        let number = self.points.as_slice().len();
        if number > u32::MAX as usize {
            return Err(NoMemory);
        }
        push(&mut self.points, point)?;
        self.link(self.at, number as u32)?;
        self.at = number as u32;
        Ok(())
    }

    /// Goes on after another point.
    pub fn go(&mut self, at: u32)
        ensures { self.new ≡ moved at self.old }
    {
        self.at = at;
    }

    /// Adds a plain point after the last one and after another one.
    ///
    /// # Errors
    ///
    /// Want of memory.
    pub fn meet(&mut self, end: u32) -> Result<(), NoMemory>
        ensures { OnOk result (self.new ≡ meeting end self.old) }
    {
        self.point(Point::Plain)?;
        let meeting = self.at;
        self.link(end, meeting)
    }

    /// Lets what was built last meet the ends of other parts, the last of them first.
    ///
    /// # Errors
    ///
    /// Want of memory.
    pub fn meet_all(&mut self, mut ends: Vec<u32>) -> Result<(), NoMemory>
        ensures { OnOk result (self.new ≡ met ends.items self.old) }
    {
        while let Some(end) = ends.pop() {
            self.meet(end)?;
        }
        Ok(())
    }
}
