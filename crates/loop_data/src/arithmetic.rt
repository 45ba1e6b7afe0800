//! What the opcodes compute.

ghost use Rattle.std.specs.Prelude.{◌≡◌, if◌then◌else◌};
ghost use Rattle.loop_data.specs.Arithmetic.{apply_to, apply_two, is_zero};

use machine_data::Opcode;

/// The value that an opcode gives of its operands: sums, differences and products modulo 2^64, signed
/// comparisons, and 1 or 0 for `lt`. `sel` gives its second operand where its first isn't 0, and else
/// its third. `load` and `store`, which compute nothing, give 0, and so does an opcode with another
/// number of operands than it takes.
pub fn apply(opcode: Opcode, operands: &[i64]) -> i64
    ensures { result ≡ apply_to opcode operands.now }
{
    match (opcode, operands) {
        (Opcode::Mov, [a]) => *a,
        (Opcode::Sel, [condition, a, b]) => chosen(*condition, *a, *b),
        (_, [a, b]) => apply_two(opcode, *a, *b),
        _ => 0,
    }
}

/// The value that an opcode of two operands gives of them, as `apply` does, and 0 for any other opcode.
/// For callers that have the operands apart, and want neither a slice nor a look at its length.
pub fn apply_two(opcode: Opcode, a: i64, b: i64) -> i64
    ensures { result ≡ apply_two opcode a b }
{
    match opcode {
        Opcode::Add => a.wrapping_add(b),
        Opcode::Sub => a.wrapping_sub(b),
        Opcode::Mul => a.wrapping_mul(b),
        Opcode::And => a & b,
        Opcode::Or => a | b,
        Opcode::Xor => a ^ b,
        Opcode::Min => a.min(b),
        Opcode::Max => a.max(b),
        Opcode::Lt => i64::from(a < b),
        _ => 0,
    }
}

/// The second value where the first isn't 0, and else the third.
pub fn chosen(condition: i64, a: i64, b: i64) -> i64
    ensures { result ≡ (if is_zero condition then b else a) }
{
    if condition == 0 { b } else { a }
}
