// The run of three-address code, by steps.

use crate::acts::overwrite;
use std::alloc::Global;
use std::mem;
use tac_form::{Address, Block, Destination, Edge, Exit, Instruction, Operand, Part, Spot, Tac};
use terra_eval::memory::put;
use terra_eval::{End, Run, Value};
use terra_memory::Region;
use terra_words::FaultKind;
use tl_base::limits::{MAX_CALLS, REGION_ADDRESS};
use tl_base::{FnId, NoMemory, Place};

/// What temporaries hold before they are written. Lowered code never reads it, so any other word would do.
const UNWRITTEN: u64 = 0xA5A5_A5A5_A5A5_A5A5;

/// The functions of a program, and those that stand as values.
#[derive(Clone, Copy)]
pub struct Program<'a> {
    pub codes: &'a [Tac],
    pub entries: &'a [FnId],
}

/// A call in progress.
#[derive(Drop)]
pub struct Activation {
    pub function: FnId,
    pub block: usize,
    pub at: usize,
    pub temps: Vec<u64>,
    pub areas: Vec<Vec<u8>>,
    pub base: u64,
}

/// A caller that waits, and where the result goes.
#[derive(Drop)]
pub struct Caller {
    pub waits: Activation,
    pub to: Destination,
}

#[derive(Drop)]
pub struct Machine {
    pub alloc: Global,
    pub here: Activation,
    pub callers: Vec<Caller>,
    pub region: Region,
    pub left: u64,
    pub out: Vec<u8>,
}

/// How a run ends, but for its output.
#[derive(Drop)]
pub enum Stop {
    NoMemory,
    Fault(FaultKind, Place),
    Stuck,
    More,
    Returned(Value),
}

impl From<std::alloc::AllocError> for Stop {
    fn from(_e: std::alloc::AllocError) -> Stop {
        Stop::NoMemory
    }
}

impl<T: Drop> From<std::alloc::AllocFailed<T>> for Stop {
    fn from(_e: std::alloc::AllocFailed<T>) -> Stop {
        Stop::NoMemory
    }
}

impl From<NoMemory> for Stop {
    fn from(_e: NoMemory) -> Stop {
        Stop::NoMemory
    }
}

/// The code of a function.
pub fn code_of<'a>(p: &Program<'a>, f: FnId) -> Result<&'a Tac, Stop> {
    match p.codes.get(f.0 as usize) {
        Some(code) => Ok(code),
        None => Err(Stop::Stuck),
    }
}

/// The run of a function as the entry.
pub fn run(
    alloc: Global,
    p: &Program<'_>,
    region: Region,
    n: u64,
    f: FnId,
    arguments: &[Value],
) -> Result<Run, NoMemory> {
    let top = REGION_ADDRESS + region.memory_size();
    let mut m = Machine {
        alloc,
        here: fresh(alloc, f, top),
        callers: Vec::new(alloc),
        region,
        left: n,
        out: Vec::new(alloc),
    };
    let stop = stopped(m.run(p, f, arguments));
    ended(stop, m.out)
}

/// Why a run stopped. One that goes on for longer than any test is stuck.
fn stopped(run: Result<(), Stop>) -> Stop {
    match run {
        Err(stop) => stop,
        Ok(()) => Stop::Stuck,
    }
}

fn ended(stop: Stop, out: Vec<u8>) -> Result<Run, NoMemory> {
    match stop {
        Stop::NoMemory => Err(NoMemory),
        Stop::More => Ok(Run::More(out)),
        Stop::Fault(kind, at) => Ok(Run::Over(End::Fault(kind, at), out)),
        Stop::Stuck => Ok(Run::Over(End::Stuck, out)),
        Stop::Returned(v) => Ok(Run::Over(End::Returned(v), out)),
    }
}

fn fresh(alloc: Global, f: FnId, base: u64) -> Activation {
    Activation {
        function: f,
        block: 0,
        at: 0,
        temps: Vec::new(alloc),
        areas: Vec::new(alloc),
        base,
    }
}

impl Activation {
    pub fn word(&self, a: Operand) -> Result<u64, Stop> {
        match a {
            Operand::Constant(c) => Ok(c),
            Operand::Temp(t) => self.temp(t),
        }
    }

    fn temp(&self, t: u64) -> Result<u64, Stop> {
        match self.temps.get(t as usize) {
            Some(x) => Ok(*x),
            None => Err(Stop::Stuck),
        }
    }

    pub fn set(&mut self, d: u64, x: u64) -> Result<(), Stop> {
        match self.temps.get_mut(d as usize) {
            Some(temp) => {
                *temp = x;
                Ok(())
            }
            None => Err(Stop::Stuck),
        }
    }

    /// The address of an offset in the frame.
    pub fn in_frame(&self, offset: u64) -> Result<u64, Stop> {
        match self.base.checked_add(offset) {
            Some(a) => Ok(a),
            None => Err(Stop::Stuck),
        }
    }

    fn address(&self, a: Address) -> Result<u64, Stop> {
        match a {
            Address::Word(a) => self.word(a),
            Address::Frame(offset) => self.in_frame(offset),
        }
    }

    fn area(&self, n: u64) -> Result<&[u8], Stop> {
        match self.areas.get(n as usize) {
            Some(bytes) => Ok(bytes.as_slice()),
            None => Err(Stop::Stuck),
        }
    }

    pub fn set_area(&mut self, n: u64, bytes: Vec<u8>) -> Result<(), Stop> {
        match self.areas.get_mut(n as usize) {
            Some(area) => {
                *area = bytes;
                Ok(())
            }
            None => Err(Stop::Stuck),
        }
    }

    /// What is passed or given back.
    pub fn value(&self, alloc: Global, part: Part) -> Result<Value, Stop> {
        match part {
            Part::Word(a) => {
                let x = self.word(a)?;
                Ok(Value::word(x))
            }
            Part::Area(n) => {
                let bytes = self.area(n)?.to_vec(alloc)?;
                Ok(Value::from_bytes(bytes))
            }
        }
    }

    /// What is passed goes to a temporary, or all its bytes to an area of their number, or it isn't kept.
    fn take(&mut self, alloc: Global, code: &Tac, to: Destination, v: &Value) -> Result<(), Stop> {
        match to {
            Destination::Temp(t) => self.set(t, v.number()),
            Destination::Area(n) => {
                let wanted = code.areas.as_slice().get(n as usize).copied().unwrap_or(0);
                if v.as_bytes().len() as u64 != wanted {
                    return Err(Stop::Stuck);
                }
                let bytes = v.as_bytes().to_vec(alloc)?;
                self.set_area(n, bytes)
            }
            Destination::Nothing => Ok(()),
        }
    }
}

impl Machine {
    fn run(&mut self, p: &Program<'_>, f: FnId, arguments: &[Value]) -> Result<(), Stop> {
        let code = code_of(p, f)?;
        let top = self.here.base;
        self.here = self.entered(code.place, code, f, top, 0, arguments)?;
        for _ in 0..u64::MAX {
            self.step(p)?;
        }
        Ok(())
    }

    /// A function begins with its frame under `top`, below so many callers: depth is tested, then the data stack.
    fn entered(
        &self,
        at: Place,
        code: &Tac,
        f: FnId,
        top: u64,
        depth: usize,
        arguments: &[Value],
    ) -> Result<Activation, Stop> {
        if depth >= MAX_CALLS as usize {
            return Err(Stop::Fault(FaultKind::CallDepth, at));
        }
        if !self.has_room(top, code.frame) {
            return Err(Stop::Fault(FaultKind::StackFull, at));
        }
        let base = top.saturating_sub(code.frame);
        let mut called = fresh(self.alloc, f, base);
        called.temps.resize(code.temps as usize, UNWRITTEN)?;
        for _ in code.areas.as_slice() {
            called.areas.push(Vec::new(self.alloc))?;
        }
        self.pass(code, &mut called, arguments)?;
        Ok(called)
    }

    /// Whether a frame under `top` ends above the heap's limit.
    fn has_room(&self, top: u64, frame: u64) -> bool {
        let memory = self.region.memory_size();
        let limit = REGION_ADDRESS + memory - memory / 4;
        top >= limit.saturating_add(frame)
    }

    fn pass(&self, code: &Tac, called: &mut Activation, arguments: &[Value]) -> Result<(), Stop> {
        let parameters = code.parameters.as_slice();
        if parameters.len() != arguments.len() {
            return Err(Stop::Stuck);
        }
        for (to, v) in parameters.iter().zip(arguments) {
            called.take(self.alloc, code, *to, v)?;
        }
        Ok(())
    }

    fn step(&mut self, p: &Program<'_>) -> Result<(), Stop> {
        let code = code_of(p, self.here.function)?;
        match code.blocks.as_slice().get(self.here.block) {
            Some(block) => self.step_in(p, block),
            None => Err(Stop::Stuck),
        }
    }

    fn step_in(&mut self, p: &Program<'_>, block: &Block) -> Result<(), Stop> {
        match block.instructions.as_slice().get(self.here.at) {
            Some(i) => {
                self.here.at = self.here.at.saturating_add(1);
                self.act(p, i)
            }
            None => self.leave(p, &block.exit),
        }
    }

    fn act(&mut self, p: &Program<'_>, i: &Instruction) -> Result<(), Stop> {
        match i {
            Instruction::Compute(d, op, number, a, b) => self.compute(*d, *op, *number, *a, *b),
            Instruction::TestDivisor(at, a) => self.test_divisor(*at, *a),
            Instruction::Copy(d, a) => self.copy(*d, *a),
            Instruction::Locate(d, offset) => self.locate(*d, *offset),
            Instruction::Load(d, number, from) => self.load(*d, *number, *from),
            Instruction::Store(to, size, a) => self.store(*to, *size, *a),
            Instruction::Move(to, from, size) => self.move_bytes(*to, *from, *size),
            Instruction::Clear(n, size) => self.clear(*n, *size),
            Instruction::Call(to, at, f, parts) => self.call(p, *to, *at, *f, parts.as_slice()),
            Instruction::CallValue(to, at, signature, a, parts) => {
                self.call_value(p, *to, *at, signature, *a, parts.as_slice())
            }
            Instruction::PutByte(a) => self.put_byte(*a),
            Instruction::Write(at, a, b) => self.write(*at, *a, *b),
            Instruction::Alloc(d, a) => self.give_bytes(*d, *a),
        }
    }

    /// So many bytes from a spot.
    pub fn fetch(&self, from: Spot, size: u64) -> Result<Vec<u8>, Stop> {
        match from {
            Spot::Region(at, a) => self.fetch_from_region(at, a, size),
            Spot::Area(n, offset) => self.fetch_from_area(n, offset, size),
        }
    }

    fn fetch_from_region(&self, at: Place, a: Address, size: u64) -> Result<Vec<u8>, Stop> {
        let address = self.here.address(a)?;
        match self.region.bytes(address, size) {
            None => Err(Stop::Fault(FaultKind::BadAddress, at)),
            Some(bytes) => Ok(bytes.to_vec(self.alloc)?),
        }
    }

    fn fetch_from_area(&self, n: u64, offset: u64, size: u64) -> Result<Vec<u8>, Stop> {
        let all = self.here.area(n)?;
        let from = offset as usize;
        let end = from.saturating_add(size as usize);
        if end > all.len() {
            return Err(Stop::Stuck);
        }
        Ok(all[from..end].to_vec(self.alloc)?)
    }

    /// Bytes to a spot.
    pub fn place(&mut self, to: Spot, bytes: &[u8]) -> Result<(), Stop> {
        match to {
            Spot::Region(at, a) => {
                let address = self.here.address(a)?;
                if put(&mut self.region, address, bytes) {
                    Ok(())
                } else {
                    Err(Stop::Fault(FaultKind::BadAddress, at))
                }
            }
            Spot::Area(n, offset) => self.place_in_area(n, offset as usize, bytes),
        }
    }

    fn place_in_area(&mut self, n: u64, offset: usize, bytes: &[u8]) -> Result<(), Stop> {
        match self.here.areas.get_mut(n as usize) {
            Some(area) => {
                if offset > area.len() {
                    return Err(Stop::Stuck);
                }
                overwrite(area, offset, bytes)?;
                Ok(())
            }
            None => Err(Stop::Stuck),
        }
    }

    fn count(&mut self) -> Result<(), Stop> {
        if self.left == 0 {
            return Err(Stop::More);
        }
        self.left -= 1;
        Ok(())
    }

    /// A call of a function, whose arguments stand first.
    pub fn call(
        &mut self,
        p: &Program<'_>,
        to: Destination,
        at: Place,
        f: FnId,
        parts: &[Part],
    ) -> Result<(), Stop> {
        let mut arguments = Vec::new(self.alloc);
        for part in parts {
            let v = self.here.value(self.alloc, *part)?;
            arguments.push(v)?;
        }
        self.count()?;
        let code = code_of(p, f)?;
        let depth = self.callers.len().saturating_add(1);
        let called = self.entered(at, code, f, self.here.base, depth, &arguments)?;
        let waits = mem::replace(&mut self.here, called);
        self.callers.push(Caller { waits, to })?;
        Ok(())
    }

    fn follow(&mut self, e: Edge) -> Result<(), Stop> {
        if e.counts {
            self.count()?;
        }
        self.here.block = e.block as usize;
        self.here.at = 0;
        Ok(())
    }

    fn leave(&mut self, p: &Program<'_>, exit: &Exit) -> Result<(), Stop> {
        match exit {
            Exit::Jump(e) => self.follow(*e),
            Exit::Branch(a, e, f) => self.branch(*a, *e, *f),
            Exit::Return(part) => self.give_back(p, *part),
            Exit::Fail(kind, at) => Err(Stop::Fault(*kind, *at)),
        }
    }

    fn branch(&mut self, a: Operand, e: Edge, f: Edge) -> Result<(), Stop> {
        if self.here.word(a)? == 0 {
            self.follow(f)
        } else {
            self.follow(e)
        }
    }

    fn give_back(&mut self, p: &Program<'_>, part: Part) -> Result<(), Stop> {
        let v = self.here.value(self.alloc, part)?;
        match self.callers.pop() {
            Some(caller) => self.back(p, caller, &v),
            None => Err(Stop::Returned(v)),
        }
    }

    /// Back in a caller, which takes the result.
    fn back(&mut self, p: &Program<'_>, caller: Caller, v: &Value) -> Result<(), Stop> {
        let code = code_of(p, caller.waits.function)?;
        self.here = caller.waits;
        self.here.take(self.alloc, code, caller.to, v)
    }
}
