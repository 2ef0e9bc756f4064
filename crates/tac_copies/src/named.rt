// Instructions that read temporaries by other names.

ghost use Rattle.std.specs.Prelude.{◌≡◌, OnOk, IfOk, map};
ghost use Rattle.tac_copies.specs.Kept.{name_in};
ghost use Rattle.tac_copies.specs.Shortened.{named, named_address, named_spot, named_part, named_in, named_exit, own_names};
ghost use Rattle.tac_form.specs.Flow.{put};

use crate::copied::copied_signature;
use indexmap::IndexMap;
use std::alloc::Global;
use std::marker::Model;
use tac_form::{Address, Exit, Instruction, Operand, Part, PartList, Spot};
use tl_base::NoMemory;

/// The temporaries that are read by another name, each with that. Contracts see the entries.
#[derive(Drop)]
pub(crate) struct Names {
    names: IndexMap<u64, u64>,
}

impl Model for Names {
    ghost use Rattle.std.specs.Prelude.{ℕ, List};

    ghost Value = { List (ℕ × ℕ) };

    ghost view = { λ n. n.names.entries };
}

impl Names {
    /// Each temporary is read by its own name.
    pub(crate) fn new(alloc: Global) -> Names
        ensures { name_in result ≡ own_names }
    {
        Names {
            names: IndexMap::new(alloc),
        }
    }

    /// From now on t is read by the name s.
    pub(crate) fn put(&mut self, t: u64, s: u64) -> Result<(), NoMemory>
        ensures { OnOk result (name_in self.new ≡ put (name_in self.old) t s) }
    {
        self.names.insert(t, s)?;
        Ok(())
    }

    /// The name by which the temporary is read.
    fn name_of(&self, t: u64) -> u64
        ensures { result ≡ name_in self.now t }
    {
        match self.names.get(&t) {
            Some(s) => *s,
            None => t,
        }
    }
}

/// The instruction, which reads temporaries by their names and writes the same as before.
pub(crate) fn named_in(
    alloc: Global,
    names: &Names,
    instruction: &Instruction,
) -> Result<Instruction, NoMemory>
    ensures { IfOk result (λ made. made ≡ named_in (name_in names.now) instruction.now) }
{
    Ok(match instruction {
        Instruction::Compute(d, op, form, a, b) => {
            Instruction::Compute(*d, *op, *form, named(names, *a), named(names, *b))
        }
        Instruction::TestDivisor(at, a) => Instruction::TestDivisor(*at, named(names, *a)),
        Instruction::Copy(d, a) => Instruction::Copy(*d, named(names, *a)),
        Instruction::Locate(d, offset) => Instruction::Locate(*d, *offset),
        Instruction::Load(d, form, spot) => Instruction::Load(*d, *form, named_spot(names, *spot)),
        Instruction::Store(spot, size, a) => {
            Instruction::Store(named_spot(names, *spot), *size, named(names, *a))
        }
        Instruction::Move(to, from, size) => {
            Instruction::Move(named_spot(names, *to), named_spot(names, *from), *size)
        }
        Instruction::Clear(n, size) => Instruction::Clear(*n, *size),
        Instruction::Call(to, at, f, arguments) => {
            Instruction::Call(
                *to,
                *at,
                *f,
                named_parts(alloc, names, arguments.as_slice())?,
            )
        }
        Instruction::CallValue(to, at, signature, a, arguments) => Instruction::CallValue(
            *to,
            *at,
            copied_signature(alloc, signature)?,
            named(names, *a),
            named_parts(alloc, names, arguments.as_slice())?,
        ),
        Instruction::PutByte(a) => Instruction::PutByte(named(names, *a)),
        Instruction::Write(at, a, b) => {
            Instruction::Write(*at, named(names, *a), named(names, *b))
        }
        Instruction::Alloc(d, a) => Instruction::Alloc(*d, named(names, *a)),
    })
}

/// The exit, which reads temporaries by their names.
pub(crate) fn named_exit(names: &Names, exit: Exit) -> Exit
    ensures { result ≡ named_exit (name_in names.now) exit }
{
    match exit {
        Exit::Jump(edge) => Exit::Jump(edge),
        Exit::Branch(a, edge, other) => Exit::Branch(named(names, a), edge, other),
        Exit::Return(part) => Exit::Return(named_part(names, part)),
        Exit::Fail(kind, at) => Exit::Fail(kind, at),
    }
}

fn named_parts(alloc: Global, names: &Names, parts: &[Part]) -> Result<PartList, NoMemory>
    ensures { IfOk result (λ made. made ≡ map (named_part (name_in names.now)) parts.now) }
{
    let mut items = Vec::new(alloc);
    for part in parts {
        items.push(named_part(names, *part))?;
    }
    Ok(PartList::from_vec(items))
}

fn named_part(names: &Names, part: Part) -> Part
    ensures { result ≡ named_part (name_in names.now) part }
{
    match part {
        Part::Word(a) => Part::Word(named(names, a)),
        Part::Area(n) => Part::Area(n),
    }
}

fn named_spot(names: &Names, spot: Spot) -> Spot
    ensures { result ≡ named_spot (name_in names.now) spot }
{
    match spot {
        Spot::Region(at, address) => Spot::Region(at, named_address(names, address)),
        Spot::Area(n, offset) => Spot::Area(n, offset),
    }
}

fn named_address(names: &Names, address: Address) -> Address
    ensures { result ≡ named_address (name_in names.now) address }
{
    match address {
        Address::Word(a) => Address::Word(named(names, a)),
        Address::Frame(offset) => Address::Frame(offset),
    }
}

fn named(names: &Names, operand: Operand) -> Operand
    ensures { result ≡ named (name_in names.now) operand }
{
    match operand {
        Operand::Temp(t) => Operand::Temp(names.name_of(t)),
        Operand::Constant(c) => Operand::Constant(c),
    }
}
