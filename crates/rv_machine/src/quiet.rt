// Quiet steps, which write nothing to the output and don't stop the run, one after the other.
//
// Here the hart stands at a place of text, which is a number for each address: the distance from the begin of text, turned right by
// two bits. So a place within text is the number of its word, and one word further is the next number. The place is kept apart from
// the hart, so that a host's register holds it, and a load or store is tried only where eight bytes begin: one comparison says so.
// All else is left to a step that isn't quiet.

ghost use Rattle.std.specs.Prelude.{◌≡◌, ◌≢◌, ◌+◌, ◌-◌, ◌^◌, ◌<◌, ◌≤◌, ℕ, length, map, IfSome, Some, None, if◌then◌else◌};
ghost use Rattle.rv_machine.specs.Word.{low, word};
ghost use Rattle.rv_machine.specs.Decoded.{found_of};
ghost use Rattle.rv_machine.specs.Place.{address_at};
ghost use Rattle.rv_machine.specs.Machine.{value_at, GoesOn, writes, jumps, loads, stores, act, obeys, step, run_of};
ghost use Rattle.rv_machine.specs.Arithmetic.{register_value, shift_value};
ghost use Rattle.rv_isa.specs.declared.operation.ShiftOp.TheVariants.{Slli};
ghost use Rattle.rv_machine.specs.Shown.{hart_state, stands_at};
ghost use Rattle.rv_machine.specs.Count.{StepsBetween};

use crate::arithmetic::{register_value, shift_value};
use crate::decoded::Decoded;
use crate::hart::{Hart, branch_word, even, jump_word, put, upper};
use crate::memory::{load_value, put_value};
use rv_isa::{
    BranchOffset, Immediate, Instr, JumpOffset, LoadOp, Register, RegisterOp, ShiftCount, ShiftOp,
    StoreOp,
};
use tl_base::limits::{PRIVATE_ADDRESS, REGION_ADDRESS, TEXT_ADDRESS};

impl Hart {
    /// Takes at most `steps` steps, as long as they write nothing and don't stop the run. It says how many are left.
    pub(crate) fn run_quietly(&mut self, text: &[Decoded], steps: u64) -> u64
        requires short { length text.now < 2 ^ 62 - 2 ^ 14 }
        ensures left { result ≤ steps }
        ensures taken { StepsBetween (map found_of text.now) (hart_state self.old) (hart_state self.new) (steps - result) }
        ensures run { (rest : ℕ) → run_of (map found_of text.now) (hart_state self.old) (steps - result + rest)
            ≡ run_of (map found_of text.now) (hart_state self.new) rest }
    {
        let mut at = place_at(self.pc);
        let mut left = steps;
        while left > 0 {
            match self.advance(text, at) {
                Some(next) => at = next,
                None => {
                    self.stand(at);
                    return left;
                }
            }
            left -= 1;
        }
        self.stand(at);
        0
    }

    // Stands at a place.
    #[inline(always)]
    fn stand(&mut self, at: usize)
        ensures { hart_state self.new ≡ stands_at self.old (address_at at) }
    {
        self.pc = address_of(at);
    }

    // One step from a place, and the place where it leads to. Where it may write or stop, it isn't taken.
    #[inline(always)]
    fn advance(&mut self, text: &[Decoded], at: usize) -> Option<usize>
        requires short { length text.now < 2 ^ 62 - 2 ^ 14 }
        ensures on { IfSome result (λ next. address_at at ≢ 0) }
        ensures some { IfSome result (λ next.
            step (map found_of text.now) (stands_at self.old (address_at at)) ≡ GoesOn (stands_at self.new (address_at next))) }
        ensures none { result ≡ None → (pc : ℕ) → stands_at self.new pc ≡ stands_at self.old pc }
    {
        match text.get(at) {
            Some(word) => self.obey(word, at),
            None => None,
        }
    }

    // What a word does at a place, and the place where it leads to.
    #[inline(always)]
    fn obey(&mut self, word: &Decoded, at: usize) -> Option<usize>
        requires within { at < 2 ^ 62 - 2 ^ 14 }
        ensures some { IfSome result (λ next.
            obeys (Some (found_of word.now)) (stands_at self.old (address_at at)) ≡ GoesOn (stands_at self.new (address_at next))) }
        ensures none { result ≡ None → (pc : ℕ) → stands_at self.new pc ≡ stands_at self.old pc }
    {
        match *word {
            Decoded::LoadByte { rd, rs1, offset } => {
                self.load_inside(LoadOp::Lbu, rd, self.address(rs1, offset), at)
            }
            Decoded::LoadWord { rd, rs1, offset } => {
                self.load_inside(LoadOp::Lw, rd, self.address(rs1, offset), at)
            }
            Decoded::LoadDouble { rd, rs1, offset } => {
                self.load_inside(LoadOp::Ld, rd, self.address(rs1, offset), at)
            }
            Decoded::StoreByte { rs1, rs2, offset } => {
                self.store_inside(StoreOp::Sb, self.address(rs1, offset), self.read(rs2), at)
            }
            Decoded::StoreWord { rs1, rs2, offset } => {
                self.store_inside(StoreOp::Sw, self.address(rs1, offset), self.read(rs2), at)
            }
            Decoded::StoreDouble { rs1, rs2, offset } => {
                self.store_inside(StoreOp::Sd, self.address(rs1, offset), self.read(rs2), at)
            }
            Decoded::LoadUpper { rd, imm } => Some(self.set(rd, upper(imm), at)),
            Decoded::Jump { rd, offset } => Some(self.jump_from(at, rd, offset)),
            Decoded::JumpRegister { rd, rs1, offset } => {
                let target = even(self.address(rs1, offset));
                Some(self.jump_to(target, rd, at))
            }
            Decoded::BranchEqual { rs1, rs2, offset } => {
                Some(branch_from(at, self.read(rs1) == self.read(rs2), offset))
            }
            Decoded::BranchNotEqual { rs1, rs2, offset } => {
                Some(branch_from(at, self.read(rs1) != self.read(rs2), offset))
            }
            Decoded::AddImmediate { rd, rs1, imm } => {
                Some(self.set(rd, self.address(rs1, imm), at))
            }
            Decoded::ShiftLeft { rd, rs1, count } => Some(self.set_shifted(rd, rs1, count, at)),
            Decoded::Add { rd, rs1, rs2 } => Some(self.set_value(
                RegisterOp::Add,
                rd,
                rs1,
                rs2,
                at,
            )),
            Decoded::Subtract { rd, rs1, rs2 } => {
                Some(self.set_value(RegisterOp::Sub, rd, rs1, rs2, at))
            }
            Decoded::Xor { rd, rs1, rs2 } => Some(self.set_value(
                RegisterOp::Xor,
                rd,
                rs1,
                rs2,
                at,
            )),
            Decoded::Multiply { rd, rs1, rs2 } => {
                Some(self.set_value(RegisterOp::Mul, rd, rs1, rs2, at))
            }
            Decoded::Illegal
            | Decoded::AddUpper { .. }
            | Decoded::Branch { .. }
            | Decoded::Load { .. }
            | Decoded::Store { .. }
            | Decoded::RegisterImmediate { .. }
            | Decoded::Shift { .. }
            | Decoded::AddImmediateWord { .. }
            | Decoded::ShiftWord { .. }
            | Decoded::Registers { .. }
            | Decoded::RegistersWord { .. }
            | Decoded::Fence { .. }
            | Decoded::Call
            | Decoded::Break => match word.found() {
                Some(instr) => self.obey_other(instr, at),
                None => None,
            },
        }
    }

    // What any instruction does at a place.
    #[inline(never)]
    fn obey_other(&mut self, instr: Instr, at: usize) -> Option<usize>
        ensures some { IfSome result (λ next.
            act instr (stands_at self.old (address_at at)) ≡ GoesOn (stands_at self.new (address_at next))) }
        ensures none { result ≡ None → (pc : ℕ) → stands_at self.new pc ≡ stands_at self.old pc }
    {
        self.stand(at);
        match instr {
            Instr::Load {
                op,
                rd,
                rs1,
                offset,
            } => match self.load(op, rd, self.address(rs1, offset)) {
                Ok(()) => Some(place_at(self.pc)),
                Err(_) => None,
            },
            Instr::Store {
                op,
                rs1,
                rs2,
                offset,
            } => match self.store(op, self.address(rs1, offset), self.read(rs2)) {
                Ok(()) => Some(place_at(self.pc)),
                Err(_) => None,
            },
            Instr::Ecall => None,
            Instr::Ebreak => None,
            _ => {
                self.go_on(instr);
                Some(place_at(self.pc))
            }
        }
    }

    // Writes a register, and goes on at the next place.
    #[inline(always)]
    fn set(&mut self, register: Register, value: u64, at: usize) -> usize
        requires within { at < 2 ^ 62 - 2 ^ 14 }
        ensures { writes (stands_at self.old (address_at at)) register value ≡ GoesOn (stands_at self.new (address_at result)) }
    {
        put(&mut self.registers, register.number, value);
        next_place(at)
    }

    // SLLI.
    #[inline(always)]
    fn set_shifted(&mut self, rd: Register, rs1: Register, count: ShiftCount, at: usize) -> usize
        requires within { at < 2 ^ 62 - 2 ^ 14 }
        ensures { writes (stands_at self.old (address_at at)) rd (shift_value Slli (value_at (hart_state self.old) rs1) count.count)
            ≡ GoesOn (stands_at self.new (address_at result)) }
    {
        let value = shift_value(ShiftOp::Slli, self.read(rs1), u32::from(count.count));
        self.set(rd, value, at)
    }

    // Writes what an operation on two registers gives.
    #[inline(always)]
    fn set_value(
        &mut self,
        op: RegisterOp,
        rd: Register,
        rs1: Register,
        rs2: Register,
        at: usize,
    ) -> usize
        requires within { at < 2 ^ 62 - 2 ^ 14 }
        ensures { writes (stands_at self.old (address_at at)) rd
            (register_value op (value_at (hart_state self.old) rs1) (value_at (hart_state self.old) rs2))
            ≡ GoesOn (stands_at self.new (address_at result)) }
    {
        self.set(rd, register_value(op, self.read(rs1), self.read(rs2)), at)
    }

    // JAL.
    #[inline(always)]
    fn jump_from(&mut self, at: usize, register: Register, offset: JumpOffset) -> usize
        requires within { at < 2 ^ 62 - 2 ^ 14 }
        ensures { jumps (stands_at self.old (address_at at)) register (low (address_at at + word offset.bytes))
            ≡ GoesOn (stands_at self.new (address_at result)) }
    {
        self.jump_to(ahead(at, jump_word(offset)), register, at)
    }

    // Goes on at an address, with the address of the next place in a register.
    #[inline(always)]
    fn jump_to(&mut self, target: u64, register: Register, at: usize) -> usize
        requires within { at < 2 ^ 62 - 2 ^ 14 }
        ensures { jumps (stands_at self.old (address_at at)) register target ≡ GoesOn (stands_at self.new (address_at result)) }
    {
        put(&mut self.registers, register.number, ahead(at, 4));
        place_at(target)
    }

    // Loads to a register, where eight bytes lie at the address.
    #[inline(always)]
    fn load_inside(
        &mut self,
        op: LoadOp,
        register: Register,
        address: u64,
        at: usize,
    ) -> Option<usize>
        requires within { at < 2 ^ 62 - 2 ^ 14 }
        ensures some { IfSome result (λ next.
            loads (stands_at self.old (address_at at)) op register address ≡ GoesOn (stands_at self.new (address_at next))) }
        ensures none { result ≡ None → (pc : ℕ) → stands_at self.new pc ≡ stands_at self.old pc }
    {
        let place = address.wrapping_sub(PRIVATE_ADDRESS) as usize;
        if place < self.private_starts {
            let value = load_value(op, &self.private, place);
            return Some(self.set(register, value, at));
        }
        let place = address.wrapping_sub(REGION_ADDRESS) as usize;
        if place < self.region_starts {
            let value = load_value(op, &self.region, place);
            return Some(self.set(register, value, at));
        }
        None
    }

    // Stores bytes of a value, where eight bytes lie at the address.
    #[inline(always)]
    fn store_inside(&mut self, op: StoreOp, address: u64, value: u64, at: usize) -> Option<usize>
        requires within { at < 2 ^ 62 - 2 ^ 14 }
        ensures some { IfSome result (λ next.
            stores (stands_at self.old (address_at at)) op address value ≡ GoesOn (stands_at self.new (address_at next))) }
        ensures none { result ≡ None → (pc : ℕ) → stands_at self.new pc ≡ stands_at self.old pc }
    {
        let place = address.wrapping_sub(PRIVATE_ADDRESS) as usize;
        if place < self.private_starts {
            put_value(op, &mut self.private, place, value);
            return Some(next_place(at));
        }
        let place = address.wrapping_sub(REGION_ADDRESS) as usize;
        if place < self.region_starts {
            put_value(op, &mut self.region, place, value);
            return Some(next_place(at));
        }
        None
    }
}

// The place to which a branch leads.
#[inline(always)]
fn branch_from(at: usize, taken: bool, offset: BranchOffset) -> usize
    requires within { at < 2 ^ 62 - 2 ^ 14 }
    ensures { address_at result ≡ (if taken then low (address_at at + word offset.bytes) else low (address_at at + 4)) }
{
    if taken {
        place_at(ahead(at, branch_word(offset)))
    } else {
        next_place(at)
    }
}

// The next place.
#[inline]
#[tactic(auto, unfolding(crate::specs::Word::low, crate::specs::Place::address_at))]
fn next_place(at: usize) -> usize
    requires within { at < 2 ^ 62 - 2 ^ 14 }
    ensures { address_at result ≡ low (address_at at + 4) }
{
    at + 1
}

// The address so far from a place of text.
#[inline]
#[tactic(auto, unfolding(crate::specs::Word::low, crate::specs::Place::address_at))]
fn ahead(at: usize, distance: u64) -> u64
    requires within { at < 2 ^ 62 - 2 ^ 14 }
    ensures { result ≡ low (address_at at + distance) }
{
    (TEXT_ADDRESS + at as u64 * 4).wrapping_add(distance)
}

// The address of a place.
#[inline]
#[tactic(auto, unfolding(crate::specs::Word::low, crate::specs::Place::address_at))]
fn address_of(at: usize) -> u64
    ensures { result ≡ address_at at }
{
    let at = at as u64;
    (at % (1 << 62) * 4 + at / (1 << 62)).wrapping_add(TEXT_ADDRESS)
}

// The place of an address.
#[inline]
#[tactic(auto, unfolding(crate::specs::Word::low, crate::specs::Place::address_at))]
pub(crate) fn place_at(address: u64) -> usize
    ensures { address_at result ≡ address }
{
    let distance = address.wrapping_sub(TEXT_ADDRESS);
    (distance / 4 + distance % 4 * (1 << 62)) as usize
}
