//! The machine over any memory side.

ghost use Rattle.std.specs.Prelude.{◌≡◌, ◌<◌, ◌≤◌, ◌-◌, ℕ, [], ◌∷◌, List as Items, length, vec_len, slice_set, get_or, Some, None, IfOk};
ghost use Rattle.cdc_base.specs.Numbers.{one_more};
ghost use Rattle.cdc_epoch.specs.Faulting.{lesser_fault};
ghost use Rattle.cdc_code.specs.Frames.{Frame};
ghost use Rattle.cdc_fabric.specs.Counting.{no_counts};
ghost use Rattle.cdc_fabric.specs.Made.{IsInOrder};
ghost use Rattle.cdc_sched.specs.declared.event.Event.{Event as MachineEvent};
ghost use Rattle.cdc_sched.specs.declared.event.Event.TheVariants.{Take as TakeEvent};
ghost use Rattle.cdc_epoch.specs.declared.engine.Epoch.TheVariants.{Serial as InSerial, Forked as AfterFork, Doall as InDoall};
ghost use Rattle.cdc_epoch.specs.declared.engine.Fork.{Fork as ForkOf};
ghost use Rattle.cdc_machine.specs.Machine.{deed, closing, Takes, Acts, Closes, Drops};
ghost use Rattle.cdc_machine.specs.Code.{State, run};

use crate::lent::step_on;
use crate::roster::Roster;
use cdc_base::{List, NoMemory};
use cdc_code::Code;
use cdc_fabric::{Counts, Fabric};
use cdc_input::InputRecords;
use cdc_machine::Effect;
use cdc_prog::{Fault, FaultKind, index_of};
use cdc_sched::Event;
use cdc_task::{StepEnd, Task};
use std::alloc::Global;

/// A DOALL that was forked: its number, how many iterations it has, the index of the first, and the step.
#[derive(Clone, Copy)]
pub struct Fork {
    pub number: u32,
    pub count: u32,
    pub from: i64,
    pub by: i64,
}

/// The epoch of a machine.
#[derive(Clone, Copy)]
pub enum Epoch {
    /// A serial one, whose task has not ended.
    Serial,
    /// A serial one, whose task has forked a DOALL.
    Forked(Fork),
    /// That of a DOALL.
    Doall(Fork),
    /// The machine has ended.
    Over,
}

/// An iteration that has faulted.
#[derive(Clone, Copy)]
pub struct Faulting {
    pub task: u32,
    pub fault: Fault,
}

/// The machine of some processors on a memory side, which carries out code on records, event by event.
#[derive(Drop)]
pub struct Engine<F: Fabric> {
    code: Code,
    records: InputRecords,
    side: F,
    // the task of serial epochs
    serial: Task,
    // the iteration that each processor holds
    lanes: Vec<Task>,
    steps: List<u64>,
    roster: Roster,
    epoch: Epoch,
    // the least iteration of the epoch that has faulted
    fault: Option<Faulting>,
    boundaries: u64,
    ghost worded: { F.words side ≡ code.words },
    ghost laned: { vec_len lanes ≡ F.procs side },
    ghost counted: { length steps ≡ F.procs side },
    ghost hands: { length roster.held ≡ F.procs side },
}

// So many tasks, to be made iterations.
fn spare_tasks(alloc: Global, code: &Code, procs: u32) -> Result<Vec<Task>, NoMemory>
    ensures { IfOk result (λ lanes. vec_len lanes ≡ procs) }
{
    let mut lanes = Vec::with_capacity(alloc, procs as usize)?;
    for _proc in 0..procs {
        lanes.push(Task::serial(code))?;
    }
    Ok(lanes)
}

// The list of a DOALL, which are numbered from 1.
fn list_of(lists: &[List<u32>], number: u32) -> &[u32]
    ensures { result.now ≡ get_or lists.now (number - 1) [] }
{
    match lists.get((number as usize).saturating_sub(1)) {
        Some(list) => list.as_slice(),
        None => &[],
    }
}

// Counts an instruction of a processor.
#[inline(always)]
fn count(steps: &mut List<u64>, p: u32)
    requires { p < length steps.old }
    ensures { steps.new ≡ slice_set steps.old p (one_more (get_or steps.old p 0)) }
{
    let before = steps.as_slice()[p as usize];
    steps.set(p as usize, before.saturating_add(1));
}

// The lesser of an iteration that has faulted, if there is one, and another.
fn lesser(least: Option<Faulting>, task: u32, fault: Fault) -> Faulting
    ensures { result ≡ lesser_fault least task fault }
{
    match least {
        Some(least) if least.task <= task => least,
        _ => Faulting { task, fault },
    }
}

// Notes that an iteration has faulted.
#[cold]
#[inline(never)]
fn note_fault(least: &mut Option<Faulting>, task: u32, kind: FaultKind, line: u32)
    ensures { least.new ≡ Some (lesser_fault least.old task (record { kind = kind; line = line })) }
{
    *least = Some(lesser(*least, task, Fault { kind, line }));
}

// The serial task has forked a DOALL.
#[cold]
#[inline(never)]
fn become_forked(epoch: &mut Epoch, number: u32, count: u32, from: i64, by: i64)
    ensures { epoch.new ≡ AfterFork (record { number = number; count = count; from = from; by = by }) }
{
    *epoch = Epoch::Forked(Fork {
        number,
        count,
        from,
        by,
    });
}

impl<F: Fabric> Engine<F> {
    ghost use Rattle.cdc_epoch.specs.Ties.{Ties, IsReady, CanApply, IsFree, IsHeld, AllEnded, DoesDeed, DoesAct, StandsFor, told_by, processor, counts_of};

    /// The machine before its first event, over a memory side at its start.
    ///
    /// # Errors
    ///
    /// Memory ran out. The arguments are spent then too.
    pub fn around(
        alloc: Global,
        code: Code,
        records: InputRecords,
        side: F,
        procs: u32,
    ) -> Result<Engine<F>, NoMemory>
        requires words { F.words side ≡ code.words }
        requires procs { F.procs side ≡ procs }
        requires start { F.stands side [] }
        requires counts { (p : ℕ) → p < procs → F.counts side p ≡ no_counts }
        ensures code { IfOk result (λ engine. engine.code ≡ code) }
        ensures records { IfOk result (λ engine. engine.records ≡ records) }
        ensures side { IfOk result (λ engine. engine.side ≡ side) }
        ensures counts { IfOk result (λ engine. (p : ℕ) → p < procs → counts_of F.Fabric engine p ≡ no_counts) }
        ensures stands { IfOk result (λ engine. StandsFor F.Fabric engine []) }
    {
        let serial = Task::serial(&code);
        let lanes = spare_tasks(alloc, &code, procs)?;
        let steps = vec![in alloc; 0; procs as usize]?;
        let roster = Roster::new(alloc, procs)?;
        Ok(Engine {
            code,
            records,
            side,
            serial,
            lanes,
            steps: List::of(steps),
            roster,
            epoch: Epoch::Serial,
            fault: None,
            boundaries: 0,
        })
    }

    /// Applies an event, and tells what the machine did. An event that is not enabled changes nothing of the machine; nor does
    /// any event once the machine has ended. A drop is handed on to the memory side, whether the line is there or not.
    #[inline(always)]
    pub fn apply(&mut self, event: Event) -> Effect
        requires proc { processor event < F.procs self.old.side }
        requires ready { (m : State) × Ties F.Fabric self.old m × IsReady F.Fabric self.old m }
        ensures step { (m : State) → Ties F.Fabric self.old m → IsReady F.Fabric self.old m → DoesDeed F.Fabric (deed event m) m self.old result self.new }
        ensures carry { (events : Items MachineEvent) → StandsFor F.Fabric self.old events → IsReady F.Fabric self.old (run self.old.code self.old.records.records events).machine
            → IsInOrder (F.plain self.old.side) (F.made self.old.side) (run self.old.code self.old.records.records (event ∷ events)).calls → StandsFor F.Fabric self.new (event ∷ events) }
    {
        self.meet(event)
    }

    // Does what an event asks for.
    #[inline(always)]
    fn meet(&mut self, event: Event) -> Effect
        requires proc { processor event < F.procs self.old.side }
        requires ready { (m : State) × Ties F.Fabric self.old m × IsReady F.Fabric self.old m }
        ensures { (m : State) → Ties F.Fabric self.old m → IsReady F.Fabric self.old m → DoesDeed F.Fabric (deed event m) m self.old result self.new }
    {
        if let Epoch::Over = self.epoch {
            return Effect::Idle;
        }
        match event {
            Event::Next(p) => match self.roster.hand(p) {
                Some(i) => self.act(p, i),
                None => self.meet_rarely(event),
            },
            _ => self.meet_rarely(event),
        }
    }

    // The same, where few events come.
    #[inline(always)]
    fn meet_rarely(&mut self, event: Event) -> Effect
        requires proc { processor event < F.procs self.old.side }
        requires can { (m : State) × CanApply F.Fabric self.old m }
        ensures { (m : State) → CanApply F.Fabric self.old m → DoesDeed F.Fabric (deed event m) m self.old result self.new }
    {
        match event {
            Event::Take(p, i) => self.take(p, i),
            Event::Step(p) => match self.roster.hand(p) {
                Some(i) => self.act_apart(p, i),
                None => self.close_if_complete(),
            },
            Event::Next(p) => match self.roster.hand(p) {
                Some(i) => self.act_apart(p, i),
                None => match self.roster.least_free() {
                    Some(i) => self.hold(p, i),
                    None => self.close_if_complete(),
                },
            },
            Event::Evict(p, line) => self.evict(p, line),
        }
    }

    // A processor takes a task, where it holds none and the task is there and was not taken.
    #[inline(never)]
    fn take(&mut self, p: u32, i: u64) -> Effect
        requires proc { p < F.procs self.old.side }
        requires can { (m : State) × CanApply F.Fabric self.old m }
        ensures { (m : State) → CanApply F.Fabric self.old m → DoesDeed F.Fabric (deed (TakeEvent p i) m) m self.old result self.new }
    {
        if self.roster.hand(p).is_some() || !self.roster.is_free(i) {
            return Effect::Idle;
        }
        self.hold(p, i as u32)
    }

    // A processor holds a task from now on.
    #[inline(never)]
    fn hold(&mut self, p: u32, i: u32) -> Effect
        requires proc { p < F.procs self.old.side }
        requires free { (m : State) × (at : Frame) × CanApply F.Fabric self.old m × IsFree F.Fabric self.old m p i at }
        ensures { (m : State) (at : Frame) → CanApply F.Fabric self.old m → IsFree F.Fabric self.old m p i at → DoesDeed F.Fabric (Takes p i at) m self.old result self.new }
    {
        self.roster.take(p, i);
        let Epoch::Doall(fork) = self.epoch else {
            return Effect::Took;
        };
        let index = index_of(fork.from, fork.by, i);
        self.lanes[p as usize].iteration(&self.serial, index);
        Effect::Took
    }

    // The next instruction of the task that a processor holds. It is counted first, so that nothing stands between its effect
    // and what is done with it.
    #[inline(always)]
    fn act(&mut self, p: u32, i: u32) -> Effect
        requires proc { p < F.procs self.old.side }
        requires held { (m : State) × (at : Frame) × CanApply F.Fabric self.old m × IsHeld m p i at }
        ensures { (m : State) (at : Frame) → CanApply F.Fabric self.old m → IsHeld m p i at → DoesDeed F.Fabric (Acts p i at) m self.old result self.new }
    {
        count(&mut self.steps, p);
        self.carry_out(p, i)
    }

    // The same, on its own.
    #[inline(never)]
    fn act_apart(&mut self, p: u32, i: u32) -> Effect
        requires proc { p < F.procs self.old.side }
        requires held { (m : State) × (at : Frame) × CanApply F.Fabric self.old m × IsHeld m p i at }
        ensures { (m : State) (at : Frame) → CanApply F.Fabric self.old m → IsHeld m p i at → DoesDeed F.Fabric (Acts p i at) m self.old result self.new }
    {
        self.act(p, i)
    }

    // The same, counted already.
    #[inline(always)]
    fn carry_out(&mut self, p: u32, i: u32) -> Effect
        requires proc { p < F.procs self.old.side }
        requires held { (m : State) × (at : Frame) × CanApply F.Fabric self.old m × IsHeld m p i at }
        ensures { (m : State) (at : Frame) → CanApply F.Fabric self.old m → IsHeld m p i at → DoesAct F.Fabric p i at m self.old result self.new }
    {
        match self.epoch {
            Epoch::Doall(_) => {
                let mut told = Effect::Stepped;
                if self.act_on_iteration(p, i, &mut told) {
                    Effect::Stepped
                } else {
                    told
                }
            }
            _ => self.act_on_serial(p),
        }
    }

    // The next instruction of a serial task.
    #[inline(always)]
    fn act_on_serial(&mut self, p: u32) -> Effect
        requires proc { p < F.procs self.old.side }
        requires serial { self.old.epoch ≡ InSerial }
        requires held { (m : State) × (at : Frame) × CanApply F.Fabric self.old m × IsHeld m p 0 at }
        ensures { (m : State) (at : Frame) → CanApply F.Fabric self.old m → IsHeld m p 0 at → DoesAct F.Fabric p 0 at m self.old result self.new }
    {
        let task = &mut self.serial;
        match step_on(&mut self.side, p, task, &self.code, &self.records) {
            StepEnd::Went => Effect::Stepped,
            StepEnd::Printed(piece) => Effect::Printed(piece),
            StepEnd::Forked {
                number,
                count,
                from,
                by,
            } => {
                self.roster.end(p);
                become_forked(&mut self.epoch, number, count, from, by);
                Effect::Stepped
            }
            StepEnd::Joined | StepEnd::Halted => {
                self.epoch = Epoch::Over;
                Effect::Ended
            }
            StepEnd::Faulted(kind, line) => {
                self.epoch = Epoch::Over;
                Effect::Faulted(kind, line)
            }
        }
    }

    // The next instruction of an iteration: whether a step is all that is told of it. What else is told is handed on.
    #[inline(never)]
    fn act_on_iteration(&mut self, p: u32, i: u32, told: &mut Effect) -> bool
        requires proc { p < F.procs self.old.side }
        requires doall { (fork : ForkOf) × (self.old.epoch ≡ InDoall fork) }
        requires held { (m : State) × (at : Frame) × CanApply F.Fabric self.old m × IsHeld m p i at }
        ensures { (m : State) (at : Frame) → CanApply F.Fabric self.old m → IsHeld m p i at → DoesAct F.Fabric p i at m self.old (told_by result told.new) self.new }
    {
        let lane = &mut self.lanes[p as usize];
        match step_on(&mut self.side, p, lane, &self.code, &self.records) {
            StepEnd::Went => true,
            StepEnd::Printed(piece) => {
                *told = Effect::Printed(piece);
                false
            }
            StepEnd::Faulted(kind, line) => {
                self.roster.end(p);
                note_fault(&mut self.fault, i, kind, line);
                true
            }
            StepEnd::Forked { .. } | StepEnd::Joined | StepEnd::Halted => {
                self.roster.end(p);
                true
            }
        }
    }

    // Closes the epoch, where each of its tasks was taken and has ended.
    #[inline(never)]
    fn close_if_complete(&mut self) -> Effect
        requires can { (m : State) × CanApply F.Fabric self.old m }
        ensures { (m : State) → CanApply F.Fabric self.old m → DoesDeed F.Fabric (closing m) m self.old result self.new }
    {
        if self.roster.least_free().is_some() || !self.roster.is_at_rest() {
            return Effect::Idle;
        }
        self.close()
    }

    // Closes a complete epoch.
    fn close(&mut self) -> Effect
        requires can { (m : State) × CanApply F.Fabric self.old m × AllEnded m }
        ensures { (m : State) → CanApply F.Fabric self.old m → AllEnded m → DoesDeed F.Fabric Closes m self.old result self.new }
    {
        match self.epoch {
            Epoch::Forked(fork) => self.open_doall(fork),
            Epoch::Doall(fork) => match self.fault {
                Some(least) => self.stop(least),
                None => self.open_serial(fork),
            },
            Epoch::Serial | Epoch::Over => unreachable!(),
        }
    }

    // The iterations of a fork begin.
    fn open_doall(&mut self, fork: Fork) -> Effect
        requires epoch { self.old.epoch ≡ AfterFork fork }
        requires can { (m : State) × CanApply F.Fabric self.old m × AllEnded m }
        ensures { (m : State) → CanApply F.Fabric self.old m → AllEnded m → DoesDeed F.Fabric Closes m self.old result self.new }
    {
        self.side
            .boundary(list_of(self.code.entries.as_slice(), fork.number));
        self.boundaries = self.boundaries.saturating_add(1);
        self.roster.open(fork.count);
        self.epoch = Epoch::Doall(fork);
        Effect::Boundary
    }

    // The serial task goes on after a DOALL.
    fn open_serial(&mut self, fork: Fork) -> Effect
        requires epoch { self.old.epoch ≡ InDoall fork }
        requires fault { self.old.fault ≡ None }
        requires can { (m : State) × CanApply F.Fabric self.old m × AllEnded m }
        ensures { (m : State) → CanApply F.Fabric self.old m → AllEnded m → DoesDeed F.Fabric Closes m self.old result self.new }
    {
        self.side
            .boundary(list_of(self.code.exits.as_slice(), fork.number));
        self.boundaries = self.boundaries.saturating_add(1);
        self.serial.resume();
        self.roster.open(1);
        self.epoch = Epoch::Serial;
        Effect::Boundary
    }

    // The machine ends with the fault of an iteration.
    fn stop(&mut self, least: Faulting) -> Effect
        requires epoch { (fork : ForkOf) × (self.old.epoch ≡ InDoall fork) }
        requires fault { self.old.fault ≡ Some least }
        ensures { (m : State) → CanApply F.Fabric self.old m → AllEnded m → DoesDeed F.Fabric Closes m self.old result self.new }
    {
        self.epoch = Epoch::Over;
        Effect::Faulted(least.fault.kind, least.fault.line)
    }

    // Drops a line from the cache of a processor.
    #[inline(never)]
    fn evict(&mut self, p: u32, line: u64) -> Effect
        requires proc { p < F.procs self.old.side }
        requires can { (m : State) × CanApply F.Fabric self.old m }
        ensures { (m : State) → CanApply F.Fabric self.old m → DoesDeed F.Fabric (Drops p line) m self.old result self.new }
    {
        if self.side.evict(p, line) {
            Effect::Dropped
        } else {
            Effect::Idle
        }
    }

    /// What processor `p` did so far: its instructions, and what its memory side counted of its accesses.
    pub fn counts(&self, p: u32) -> Counts
        requires proc { p < F.procs self.now.side }
        ensures counts { result ≡ counts_of F.Fabric self.now p }
    {
        Counts {
            steps: self.steps.as_slice()[p as usize],
            ..self.side.counts(p)
        }
    }

    /// The number of boundaries so far, at most the last value of u64.
    pub fn boundaries(&self) -> u64
        ensures { result ≡ self.now.boundaries }
    {
        self.boundaries
    }

    /// The number of lines of memory, at least 1.
    pub fn lines(&self) -> u64
        ensures lines { result ≡ F.lines self.now.side }
        ensures some { 1 ≤ result }
    {
        self.side.lines()
    }

    /// The texts of the code.
    #[inline(always)]
    pub fn texts(&self) -> &[List<u8>]
        ensures { result.now ≡ self.now.code.texts }
    {
        self.code.texts.as_slice()
    }

    /// Text `t` of the code.
    pub fn text(&self, t: u32) -> &[u8]
        requires { t < length self.now.code.texts }
        ensures { result.now ≡ get_or self.now.code.texts t [] }
    {
        self.code.texts.as_slice()[t as usize].as_slice()
    }
}
