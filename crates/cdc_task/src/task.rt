//! A task: what it holds, and the parts of it.

ghost use Rattle.std.specs.Prelude.{◌≡◌, ◌<◌, ◌≤◌, ◌+◌, ◌^◌, [], ◌∷◌, ℕ, ℤ, List as Items, length, drop, get_or, OnSome};
ghost use Rattle.cdc_prog.specs.Data.{zeros, put, object_of, base_of, dims_at};
ghost use Rattle.cdc_prog.specs.Held.{store_of};
ghost use Rattle.cdc_prog.specs.Input.{Input};
ghost use Rattle.cdc_prog.specs.Unread.{Takes, Skips};
ghost use Rattle.cdc_code.specs.declared.code.Code.{Code as CodeOf};
ghost use Rattle.cdc_code.specs.declared.room.TheConstants.{STACK as STACK_SIZE, LOOPS as LOOPS_SIZE, ARGUMENTS as ARGUMENTS_SIZE, DEPTH as DEPTH_SIZE, SLOTS as SLOTS_SIZE};
ghost use Rattle.cdc_code.specs.Act.{Act};
ghost use Rattle.cdc_code.specs.Frames.{Frame};
ghost use Rattle.cdc_code.specs.Rows.{binding_at, pops, first_frame};
ghost use Rattle.cdc_task.specs.Held.{left_at, kept_of, frame_of, StandsIn, resumed, begun, with_pc, with_stack, with_loops, with_args, with_slots, with_place, Popped, PoppedThree, forked, entered, WentBack};
ghost use Rattle.cdc_task.specs.Parts.{loop_of, IsInnermost, Closed};

use crate::parts::{Caller, Open};
use crate::place::Place;
use arrayvec::ArrayVec;
use cdc_base::List;
use cdc_code::{ARGUMENTS, Code, DEPTH, LOOPS, SLOTS, STACK};
use cdc_prog::{Dim, FaultKind, Var};
use std::marker::Model;
use std::mem;

/// A serial stretch of a program, or one iteration of a DOALL.
#[derive(Drop)]
pub struct Task {
    pc: usize,
    stack: ArrayVec<i64, STACK>,
    loops: ArrayVec<Open, LOOPS>,
    args: ArrayVec<u32, ARGUMENTS>,
    unit: u32,
    bound: ArrayVec<u32, ARGUMENTS>,
    callers: ArrayVec<Caller, DEPTH>,
    slots: [i64; SLOTS],
    place: Place,
    after: usize,
}

impl Model for Task {
    ghost use Rattle.std.specs.Prelude.{reverse, map};
    ghost use Rattle.cdc_task.specs.Held.{Held};
    ghost use Rattle.cdc_task.specs.Parts.{loop_of, caller_of};

    ghost Value = { Held };

    ghost view = { λ t. record { pc = t.pc; stack = reverse t.stack.items; loops = map loop_of (reverse t.loops.items); args = reverse t.args.items; unit = t.unit; bound = t.bound.items; callers = map caller_of (reverse t.callers.items); slots = t.slots; place = t.place; after = t.after } };
}

impl Task {
    /// The first task of a program: the PROGRAM unit from its beginning, before all of the input.
    pub fn serial(code: &Code) -> Task
        ensures { (records : Input) → StandsIn records result (first_frame code.now records) }
    {
        Task {
            pc: start_of(code, code.main),
            stack: ArrayVec::new(),
            loops: ArrayVec::new(),
            args: ArrayVec::new(),
            unit: code.main,
            bound: ArrayVec::new(),
            callers: ArrayVec::new(),
            slots: [0; SLOTS],
            place: Place::first(),
            after: 0,
        }
    }

    /// Makes this task, whatever it was before, the iteration of an index of the DOALL that a serial task has forked.
    pub fn iteration(&mut self, serial: &Task, index: i64)
        ensures { (path : Items ℕ) (records : Input) → frame_of path records self.new ≡ begun path records serial.now index }
    {
        self.pc = serial.pc;
        self.stack.clear();
        self.loops.clear();
        self.args.clear();
        self.unit = serial.unit;
        self.bound.clear();
        extend(&mut self.bound, serial.bound.as_slice());
        self.callers.clear();
        self.place = serial.place;
        self.slots = first_slots(index);
    }

    /// Goes on after the DOALL that the task forked.
    pub fn resume(&mut self)
        ensures { self.new ≡ resumed self.old }
    {
        self.pc = self.after;
    }

    // The place in the code.
    #[inline(always)]
    pub(crate) fn pc(&self) -> usize
        ensures { result ≡ self.now.pc }
    {
        self.pc
    }

    // Goes on at a place.
    #[inline(always)]
    pub(crate) fn go_to(&mut self, pc: usize)
        ensures { self.new ≡ with_pc pc self.old }
    {
        self.pc = pc;
    }

    // Goes on at the next instruction.
    #[inline(always)]
    pub(crate) fn advance(&mut self)
        requires { self.old.pc < 2 ^ 63 }
        ensures { self.new ≡ with_pc (self.old.pc + 1) self.old }
    {
        self.pc += 1;
    }

    // Stands where the iterations of a DOALL begin, the next instruction, and goes on later at a place.
    pub(crate) fn fork(&mut self, after: usize)
        requires { self.old.pc < 2 ^ 63 }
        ensures { self.new ≡ forked after self.old }
    {
        self.pc += 1;
        self.after = after;
    }

    #[inline(always)]
    pub(crate) fn push(&mut self, value: i64)
        requires { length self.old.stack < STACK_SIZE }
        ensures { self.new ≡ with_stack (value ∷ self.old.stack) self.old }
    {
        self.stack.push(value);
    }

    #[inline(always)]
    pub(crate) fn pop(&mut self) -> Option<i64>
        ensures { Popped self.old result self.new }
    {
        self.stack.pop()
    }

    // Pops the three numbers on the top of the stack, and hands them on with the lowest first.
    pub(crate) fn pop_controls(&mut self) -> Option<(i64, i64, i64)>
        ensures { PoppedThree self.old result self.new }
    {
        let by = self.pop()?;
        let to = self.pop()?;
        let from = self.pop()?;
        Some((from, to, by))
    }

    // So many numbers of the stack from its top, the lowest first.
    #[inline(always)]
    pub(crate) fn top(&self, count: usize) -> &[i64]
        requires { count ≤ length self.now.stack }
        ensures { (go : Items ℤ → Items ℤ → Act Frame) → pops count [] self.now.stack go ≡ go result.now (drop count self.now.stack) }
    {
        let stack = self.stack.as_slice();
        &stack[stack.len() - count..]
    }

    // Takes so many numbers from the stack.
    #[inline(always)]
    pub(crate) fn drop_top(&mut self, count: usize)
        requires { count ≤ length self.old.stack }
        ensures { self.new ≡ with_stack (drop count self.old.stack) self.old }
    {
        self.stack.truncate(self.stack.len() - count);
    }

    // Opens a loop.
    #[inline(always)]
    pub(crate) fn open(&mut self, turns: Open)
        requires { length self.old.loops < LOOPS_SIZE }
        ensures { self.new ≡ with_loops (loop_of turns ∷ self.old.loops) self.old }
    {
        self.loops.push(turns);
    }

    // Takes the innermost loop away.
    #[inline(always)]
    pub(crate) fn close(&mut self) -> Option<Open>
        ensures closed { Closed self.old result self.new }
        ensures room { OnSome result (length self.new.loops < LOOPS_SIZE) }
    {
        prove!(self.loops.as_slice().len() <= LOOPS);
        self.loops.pop()
    }

    #[inline(always)]
    pub(crate) fn innermost(&self) -> Option<Open>
        ensures { IsInnermost self.now.loops result }
    {
        let (open, _) = self.loops.as_slice().split_last()?;
        Some(*open)
    }

    // The value of a slot.
    #[inline(always)]
    pub(crate) fn slot(&self, k: u32) -> i64
        requires { k < SLOTS_SIZE }
        ensures { result ≡ store_of self.now.slots k }
    {
        self.slots[k as usize]
    }

    // Stores a value in a slot.
    #[inline(always)]
    pub(crate) fn set_slot(&mut self, k: u32, value: i64)
        requires { k < SLOTS_SIZE }
        ensures stored { store_of self.new.slots ≡ put (store_of self.old.slots) k value }
        ensures others { self.new ≡ with_slots self.new.slots self.old }
    {
        self.slots[k as usize] = value;
    }

    // Adds an object to the arguments that are gathered.
    pub(crate) fn gather(&mut self, object: u32)
        requires { length self.old.args < ARGUMENTS_SIZE }
        ensures { self.new ≡ with_args (object ∷ self.old.args) self.old }
    {
        self.args.push(object);
    }

    // Enters a unit that begins at a place, with the gathered arguments.
    pub(crate) fn enter(&mut self, start: usize, unit: u32)
        requires place { self.old.pc < 2 ^ 63 }
        requires room { length self.old.callers < DEPTH_SIZE }
        ensures { self.new ≡ entered start unit self.old }
    {
        let bound = mem::replace(&mut self.bound, self.args.take());
        self.callers.push(Caller {
            pc: self.pc + 1,
            unit: self.unit,
            bound,
        });
        self.pc = start;
        self.unit = unit;
    }

    // Goes back to the latest caller, if there is one.
    pub(crate) fn leave(&mut self) -> bool
        ensures { WentBack self.old.callers self.old result self.new }
    {
        let Some(caller) = self.callers.pop() else {
            return false;
        };
        self.pc = caller.pc;
        self.args.clear();
        self.unit = caller.unit;
        self.bound = caller.bound;
        true
    }

    // Takes the next value of the input.
    pub(crate) fn take(&mut self, records: &[List<i64>]) -> Result<i64, FaultKind>
        ensures takes { Takes (left_at records.now self.old.place) result (left_at records.now self.new.place) }
        ensures others { self.new ≡ with_place self.new.place self.old }
    {
        self.place.take(records)
    }

    // Skips the rest of the record.
    pub(crate) fn end_record(&mut self, records: &[List<i64>]) -> Result<(), FaultKind>
        ensures skips { Skips (left_at records.now self.old.place) result (left_at records.now self.new.place) }
        ensures others { self.new ≡ with_place self.new.place self.old }
    {
        self.place.end_record(records)
    }

    // The number of the object for which a variable stands.
    #[inline(always)]
    pub(crate) fn object(&self, var: Var) -> u32
        ensures { (code : CodeOf) (path : Items ℕ) → result ≡ object_of (binding_at code (kept_of path self.now)) var }
    {
        match var {
            Var::Object(k) => k,
            Var::Dummy(k) => self.bound.as_slice().get(k as usize).copied().unwrap_or(0),
            Var::Slot(_) => 0,
        }
    }

    // The first word of a variable.
    #[inline(always)]
    pub(crate) fn base(&self, code: &Code, var: Var) -> u32
        ensures { (path : Items ℕ) → result ≡ base_of (binding_at code.now (kept_of path self.now)) var }
    {
        match code.objects.as_slice().get(self.object(var) as usize) {
            Some(object) => object.base,
            None => 0,
        }
    }

    // The dimensions of a variable; none for a scalar.
    #[inline(always)]
    pub(crate) fn dims<'a>(&self, code: &'a Code, var: Var) -> &'a [Dim]
        ensures { result.now ≡ dims_at code.now.objects (get_or code.now.shapes self.now.unit []) var }
    {
        match var {
            Var::Object(k) => match code.objects.as_slice().get(k as usize) {
                Some(object) => object.dims.as_slice(),
                None => &[],
            },
            Var::Dummy(k) => dummy_dims(code, self.unit, k),
            Var::Slot(_) => &[],
        }
    }
}

// The dimensions of a dummy of a unit.
fn dummy_dims(code: &Code, unit: u32, dummy: u32) -> &[Dim]
    ensures { result.now ≡ get_or (get_or code.now.shapes unit []) dummy [] }
{
    let Some(shapes) = code.shapes.as_slice().get(unit as usize) else {
        return &[];
    };
    match shapes.as_slice().get(dummy as usize) {
        Some(dims) => dims.as_slice(),
        None => &[],
    }
}

// The slots with which an iteration begins.
#[inline(always)]
fn first_slots(index: i64) -> [i64; SLOTS]
    ensures { store_of result ≡ put zeros 0 index }
{
    let mut slots = [0; SLOTS];
    slots[0] = index;
    slots
}

/// The place of the first instruction of a unit.
pub fn start_of(code: &Code, unit: u32) -> usize
    ensures { result ≡ get_or code.now.starts unit 0 }
{
    code.starts
        .as_slice()
        .get(unit as usize)
        .copied()
        .unwrap_or(0) as usize
}

// Puts objects behind none.
fn extend(bound: &mut ArrayVec<u32, ARGUMENTS>, objects: &[u32])
    requires none { bound.old.items ≡ [] }
    requires room { length objects.now ≤ ARGUMENTS_SIZE }
    ensures { bound.new.items ≡ objects.now }
{
    match bound.try_extend_from_slice(objects) {
        Ok(()) => {}
        Err(_) => unreachable!(),
    }
}
