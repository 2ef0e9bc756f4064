// What each instruction does.

ghost use Rattle.std.specs.Prelude.{◌≤◌};

use crate::machine::{Machine, Program, Stop, code_of};
use std::alloc::Global;
use tac_form::{Destination, Number, Operand, Part, Signature, Size, Spot};
use terra_words::{BinaryOperator, FaultKind, Width};
use tl_base::{FnId, NoMemory, Place, TypeId};
use word_ops::{apply, is_negative, wrap};

impl Machine {
    pub fn compute(
        &mut self,
        d: u64,
        op: BinaryOperator,
        number: Number,
        a: Operand,
        b: Operand,
    ) -> Result<(), Stop> {
        let x = self.here.word(a)?;
        let y = self.here.word(b)?;
        if y == 0 && matches!(op, BinaryOperator::Divide | BinaryOperator::Modulo) {
            return Err(Stop::Stuck);
        }
        self.here.set(d, apply(width_of(number), op, x, y))
    }

    pub fn test_divisor(&self, at: Place, a: Operand) -> Result<(), Stop> {
        if self.here.word(a)? == 0 {
            return Err(Stop::Fault(FaultKind::DivZero, at));
        }
        Ok(())
    }

    pub fn copy(&mut self, d: u64, a: Operand) -> Result<(), Stop> {
        let x = self.here.word(a)?;
        self.here.set(d, x)
    }

    pub fn locate(&mut self, d: u64, offset: u64) -> Result<(), Stop> {
        let a = self.here.in_frame(offset)?;
        self.here.set(d, a)
    }

    pub fn load(&mut self, d: u64, number: Number, from: Spot) -> Result<(), Stop> {
        let bytes = self.fetch(from, bytes_of(number.size))?;
        let x = number_of(&bytes);
        self.here.set(d, wrap(width_of(number), u128::from(x)))
    }

    pub fn store(&mut self, to: Spot, size: Size, a: Operand) -> Result<(), Stop> {
        let x = self.here.word(a)?;
        let bytes = low_bytes(self.alloc, bytes_of(size), x)?;
        self.place(to, &bytes)
    }

    pub fn move_bytes(&mut self, to: Spot, from: Spot, size: u64) -> Result<(), Stop> {
        let bytes = self.fetch(from, size)?;
        self.place(to, &bytes)
    }

    pub fn clear(&mut self, n: u64, size: u64) -> Result<(), Stop> {
        let mut zeros = Vec::new(self.alloc);
        zeros.resize(size as usize, 0)?;
        self.here.set_area(n, zeros)
    }

    pub fn call_value(
        &mut self,
        p: &Program<'_>,
        to: Destination,
        at: Place,
        signature: &Signature,
        a: Operand,
        parts: &[Part],
    ) -> Result<(), Stop> {
        let value = self.here.word(a)?;
        let f = callee(p, at, signature, value)?;
        self.call(p, to, at, f, parts)
    }

    pub fn put_byte(&mut self, a: Operand) -> Result<(), Stop> {
        let x = self.here.word(a)?;
        self.out.push((x % 256) as u8)?;
        Ok(())
    }

    pub fn write(&mut self, at: Place, a: Operand, b: Operand) -> Result<(), Stop> {
        let address = self.here.word(a)?;
        let count = self.here.word(b)?;
        if is_negative(count) {
            return Err(Stop::Fault(FaultKind::BadAddress, at));
        }
        match self.region.bytes(address, count) {
            None => Err(Stop::Fault(FaultKind::BadAddress, at)),
            Some(bytes) => {
                self.out.extend_from_slice(bytes)?;
                Ok(())
            }
        }
    }

    pub fn give_bytes(&mut self, d: u64, a: Operand) -> Result<(), Stop> {
        let x = self.here.word(a)?;
        let given = self.region.alloc_bytes(x.cast_signed());
        self.here.set(d, given)
    }
}

/// The function that a value stands for: the number of an entry, counted from 1, of this signature.
fn callee(p: &Program<'_>, at: Place, signature: &Signature, value: u64) -> Result<FnId, Stop> {
    if value == 0 || value > p.entries.len() as u64 {
        return Err(Stop::Fault(FaultKind::BadCall, at));
    }
    let f = p.entries[(value - 1) as usize];
    let code = code_of(p, f)?;
    let found = &code.signature;
    let same = signature.result.0 == found.result.0;
    if same && same_types(signature.params.as_slice(), found.params.as_slice()) {
        Ok(f)
    } else {
        Err(Stop::Fault(FaultKind::BadCall, at))
    }
}

fn same_types(wanted: &[TypeId], found: &[TypeId]) -> bool {
    if wanted.len() != found.len() {
        return false;
    }
    for (t, u) in wanted.iter().zip(found) {
        if t.0 != u.0 {
            return false;
        }
    }
    true
}

/// Bytes over those from an offset on, and behind the last.
pub fn overwrite(all: &mut Vec<u8>, offset: usize, bytes: &[u8]) -> Result<(), NoMemory> {
    let mut at = offset;
    for byte in bytes {
        if at < all.len() {
            all[at] = *byte;
        } else {
            all.push(*byte)?;
        }
        at = at.saturating_add(1);
    }
    Ok(())
}

fn bytes_of(size: Size) -> u64
    ensures { result ≤ 8 }
{
    match size {
        Size::One => 1,
        Size::Two => 2,
        Size::Four => 4,
        Size::Eight => 8,
    }
}

fn width_of(number: Number) -> Width
    ensures { result.bits ≤ 64 }
{
    Width {
        signed: number.signed,
        bits: 8 * bytes_of(number.size),
    }
}

/// The number that bytes make, the lowest byte first.
fn number_of(bytes: &[u8]) -> u64 {
    let mut n: u64 = 0;
    for byte in bytes.iter().rev() {
        n = n.wrapping_mul(256).wrapping_add(u64::from(*byte));
    }
    n
}

/// The lowest bytes of a number, the lowest byte first.
fn low_bytes(alloc: Global, count: u64, value: u64) -> Result<Vec<u8>, NoMemory> {
    let mut bytes = Vec::new(alloc);
    let mut rest = value;
    for _ in 0..count {
        bytes.push((rest % 256) as u8)?;
        rest /= 256;
    }
    Ok(bytes)
}
