// What the instructions that compute give.

ghost use Rattle.std.specs.Prelude.{◌≡◌, ◌+◌, ◌*◌, ◌/◌, ◌%◌, ◌^◌, ◌<◌};
ghost use Rattle.std.specs.Int.{w128, cast_unsigned};
ghost use Rattle.rv_machine.specs.Word.{low, difference, word, signed_word, extended_word};
ghost use Rattle.rv_machine.specs.Arithmetic.{shifted_left, shifted_right, shifted_signed, word_shifted_left, word_shifted_right};
ghost use Rattle.rv_machine.specs.Arithmetic.{word_shifted_signed, product_signed, product_mixed, product_unsigned, quotient_signed};
ghost use Rattle.rv_machine.specs.Arithmetic.{remainder_signed, quotient_unsigned, remainder_unsigned, word_quotient_signed};
ghost use Rattle.rv_machine.specs.Arithmetic.{word_remainder_signed, word_quotient_unsigned, word_remainder_unsigned, register_value};
ghost use Rattle.rv_machine.specs.Arithmetic.{register_word_value, immediate_value, shift_value, shift_word_value, is_taken};

use rv_isa::{BranchCondition, ImmediateOp, RegisterOp, RegisterWordOp, ShiftOp};

/// ADD to AND, and MUL to REMU.
#[tactic(auto, unfolding(crate::specs::Word::low, crate::specs::Word::difference))]
pub(crate) fn register_value(op: RegisterOp, a: u64, b: u64) -> u64
    ensures { result ≡ register_value op a b }
{
    match op {
        RegisterOp::Add => a.wrapping_add(b),
        RegisterOp::Sub => a.wrapping_sub(b),
        RegisterOp::Sll => shifted_left(a, (b % 64) as u32),
        RegisterOp::Slt => u64::from(a.cast_signed() < b.cast_signed()),
        RegisterOp::Sltu => u64::from(a < b),
        RegisterOp::Xor => a ^ b,
        RegisterOp::Srl => shifted_right(a, (b % 64) as u32),
        RegisterOp::Sra => shifted_signed(a, (b % 64) as u32),
        RegisterOp::Or => a | b,
        RegisterOp::And => a & b,
        RegisterOp::Mul => a.wrapping_mul(b),
        RegisterOp::Mulh => product_signed(a, b),
        RegisterOp::Mulhsu => product_mixed(a, b),
        RegisterOp::Mulhu => product_unsigned(a, b),
        RegisterOp::Div => quotient_signed(a, b),
        RegisterOp::Divu => quotient_unsigned(a, b),
        RegisterOp::Rem => remainder_signed(a, b),
        RegisterOp::Remu => remainder_unsigned(a, b),
    }
}

/// ADDW to SRAW, and MULW to REMUW.
#[tactic(auto, unfolding(crate::specs::Word::low, crate::specs::Word::difference))]
pub(crate) fn register_word_value(op: RegisterWordOp, a: u64, b: u64) -> u64
    ensures { result ≡ register_word_value op a b }
{
    match op {
        RegisterWordOp::Addw => extended_word(a.wrapping_add(b)),
        RegisterWordOp::Subw => extended_word(a.wrapping_sub(b)),
        RegisterWordOp::Sllw => word_shifted_left(a, (b % 32) as u32),
        RegisterWordOp::Srlw => word_shifted_right(a, (b % 32) as u32),
        RegisterWordOp::Sraw => word_shifted_signed(a, (b % 32) as u32),
        RegisterWordOp::Mulw => extended_word(a.wrapping_mul(b)),
        RegisterWordOp::Divw => word_quotient_signed(a, b),
        RegisterWordOp::Divuw => word_quotient_unsigned(a, b),
        RegisterWordOp::Remw => word_remainder_signed(a, b),
        RegisterWordOp::Remuw => word_remainder_unsigned(a, b),
    }
}

/// ADDI to ANDI, at the word of the immediate.
#[tactic(auto, unfolding(crate::specs::Word::low))]
pub(crate) fn immediate_value(op: ImmediateOp, a: u64, b: u64) -> u64
    ensures { result ≡ immediate_value op a b }
{
    match op {
        ImmediateOp::Addi => a.wrapping_add(b),
        ImmediateOp::Slti => u64::from(a.cast_signed() < b.cast_signed()),
        ImmediateOp::Sltiu => u64::from(a < b),
        ImmediateOp::Xori => a ^ b,
        ImmediateOp::Ori => a | b,
        ImmediateOp::Andi => a & b,
    }
}

/// SLLI, SRLI and SRAI.
pub(crate) fn shift_value(op: ShiftOp, a: u64, count: u32) -> u64
    requires { count < 64 }
    ensures { result ≡ shift_value op a count }
{
    match op {
        ShiftOp::Slli => shifted_left(a, count),
        ShiftOp::Srli => shifted_right(a, count),
        ShiftOp::Srai => shifted_signed(a, count),
    }
}

/// SLLIW, SRLIW and SRAIW.
pub(crate) fn shift_word_value(op: ShiftOp, a: u64, count: u32) -> u64
    requires { count < 32 }
    ensures { result ≡ shift_word_value op a count }
{
    match op {
        ShiftOp::Slli => word_shifted_left(a, count),
        ShiftOp::Srli => word_shifted_right(a, count),
        ShiftOp::Srai => word_shifted_signed(a, count),
    }
}

/// Whether a branch is taken.
pub(crate) fn is_taken(condition: BranchCondition, a: u64, b: u64) -> bool
    ensures { result ≡ is_taken condition a b }
{
    match condition {
        BranchCondition::Eq => a == b,
        BranchCondition::Ne => a != b,
        BranchCondition::Lt => a.cast_signed() < b.cast_signed(),
        BranchCondition::Ge => a.cast_signed() >= b.cast_signed(),
        BranchCondition::Ltu => a < b,
        BranchCondition::Geu => a >= b,
    }
}

/// The low 32 bits of a word, extended by their sign.
pub(crate) fn extended_word(a: u64) -> u64
    ensures { result ≡ extended_word a }
{
    word_of(signed_word(a))
}

/// ADDIW: the sum's low 32 bits, extended by their sign.
#[tactic(auto, unfolding(crate::specs::Word::low))]
pub(crate) fn add_word(a: u64, b: u64) -> u64
    ensures { result ≡ extended_word (a + b) }
{
    extended_word(a.wrapping_add(b))
}

// The signed number of the low 32 bits.
fn signed_word(a: u64) -> i32
    ensures { result ≡ signed_word a }
{
    low_word(a).cast_signed()
}

// The word of a signed number of 32 bits.
fn word_of(z: i32) -> u64
    ensures { result ≡ word z }
{
    i64::from(z).cast_unsigned()
}

// The low 32 bits.
fn low_word(a: u64) -> u32
    ensures { result ≡ a % 2 ^ 32 }
{
    (a % (1 << 32)) as u32
}

#[tactic(auto, unfolding(crate::specs::Word::low, crate::specs::Arithmetic::shifted_left))]
fn shifted_left(a: u64, count: u32) -> u64
    requires { count < 64 }
    ensures { result ≡ shifted_left a count }
{
    a << count
}

#[tactic(auto, unfolding(crate::specs::Arithmetic::shifted_right))]
fn shifted_right(a: u64, count: u32) -> u64
    requires { count < 64 }
    ensures { result ≡ shifted_right a count }
{
    a >> count
}

#[tactic(auto, unfolding(crate::specs::Arithmetic::shifted_signed))]
fn shifted_signed(a: u64, count: u32) -> u64
    requires { count < 64 }
    ensures { result ≡ shifted_signed a count }
{
    (a.cast_signed() >> count).cast_unsigned()
}

#[tactic(auto, unfolding(crate::specs::Arithmetic::word_shifted_left))]
fn word_shifted_left(a: u64, count: u32) -> u64
    requires { count < 32 }
    ensures { result ≡ word_shifted_left a count }
{
    extended_word(a << count)
}

#[tactic(auto, unfolding(crate::specs::Arithmetic::word_shifted_right))]
fn word_shifted_right(a: u64, count: u32) -> u64
    requires { count < 32 }
    ensures { result ≡ word_shifted_right a count }
{
    extended_word(a % (1 << 32) >> count)
}

#[tactic(auto, unfolding(crate::specs::Arithmetic::word_shifted_signed))]
fn word_shifted_signed(a: u64, count: u32) -> u64
    requires { count < 32 }
    ensures { result ≡ word_shifted_signed a count }
{
    word_of(signed_word(a) >> count)
}

#[tactic(auto, unfolding(crate::specs::Arithmetic::product_signed))]
fn product_signed(a: u64, b: u64) -> u64
    ensures { result ≡ product_signed a b }
{
    upper_half(i128::from(a.cast_signed()).wrapping_mul(i128::from(b.cast_signed())))
}

#[tactic(auto, unfolding(crate::specs::Arithmetic::product_mixed))]
fn product_mixed(a: u64, b: u64) -> u64
    ensures { result ≡ product_mixed a b }
{
    upper_half(i128::from(a.cast_signed()).wrapping_mul(i128::from(b)))
}

// The upper 64 of 128 bits.
fn upper_half(product: i128) -> u64
    ensures { result ≡ cast_unsigned w128 product / 2 ^ 64 }
{
    (product.cast_unsigned() >> 64) as u64
}

#[tactic(auto, unfolding(crate::specs::Arithmetic::product_unsigned))]
fn product_unsigned(a: u64, b: u64) -> u64
    ensures { result ≡ product_unsigned a b }
{
    (u128::from(a) * u128::from(b) >> 64) as u64
}

#[tactic(auto, unfolding(crate::specs::Arithmetic::quotient_signed))]
fn quotient_signed(a: u64, b: u64) -> u64
    ensures { result ≡ quotient_signed a b }
{
    if b == 0 {
        u64::MAX
    } else {
        a.cast_signed()
            .wrapping_div(b.cast_signed())
            .cast_unsigned()
    }
}

#[tactic(auto, unfolding(crate::specs::Arithmetic::remainder_signed))]
fn remainder_signed(a: u64, b: u64) -> u64
    ensures { result ≡ remainder_signed a b }
{
    if b == 0 {
        a
    } else {
        a.cast_signed()
            .wrapping_rem(b.cast_signed())
            .cast_unsigned()
    }
}

#[tactic(auto, unfolding(crate::specs::Arithmetic::quotient_unsigned))]
fn quotient_unsigned(a: u64, b: u64) -> u64
    ensures { result ≡ quotient_unsigned a b }
{
    if b == 0 { u64::MAX } else { a / b }
}

#[tactic(auto, unfolding(crate::specs::Arithmetic::remainder_unsigned))]
fn remainder_unsigned(a: u64, b: u64) -> u64
    ensures { result ≡ remainder_unsigned a b }
{
    if b == 0 { a } else { a % b }
}

#[tactic(auto, unfolding(crate::specs::Arithmetic::word_quotient_signed))]
fn word_quotient_signed(a: u64, b: u64) -> u64
    ensures { result ≡ word_quotient_signed a b }
{
    if low_word(b) == 0 {
        u64::MAX
    } else {
        word_of(signed_word(a).wrapping_div(signed_word(b)))
    }
}

#[tactic(auto, unfolding(crate::specs::Arithmetic::word_remainder_signed))]
fn word_remainder_signed(a: u64, b: u64) -> u64
    ensures { result ≡ word_remainder_signed a b }
{
    if low_word(b) == 0 {
        extended_word(a)
    } else {
        word_of(signed_word(a).wrapping_rem(signed_word(b)))
    }
}

#[tactic(auto, unfolding(crate::specs::Arithmetic::word_quotient_unsigned))]
fn word_quotient_unsigned(a: u64, b: u64) -> u64
    ensures { result ≡ word_quotient_unsigned a b }
{
    if low_word(b) == 0 {
        u64::MAX
    } else {
        extended_word(u64::from(low_word(a) / low_word(b)))
    }
}

#[tactic(auto, unfolding(crate::specs::Arithmetic::word_remainder_unsigned))]
fn word_remainder_unsigned(a: u64, b: u64) -> u64
    ensures { result ≡ word_remainder_unsigned a b }
{
    if low_word(b) == 0 {
        extended_word(a)
    } else {
        extended_word(u64::from(low_word(a) % low_word(b)))
    }
}
