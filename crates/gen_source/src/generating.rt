// The text of a generated source, written into one string.

ghost use Rattle.std.specs.Prelude.{◌≡◌, ◌++◌, ◌<◌, ◌≤◌, ◌+◌, ◌*◌, ◌^◌, IfOk, OnOk};
ghost use Rattle.std.specs.Int.{div_ceil};
ghost use Rattle.std.specs.String.{string_bytes};
ghost use Rattle.gen_source.specs.Generated.{generated, function_line, function_lines, field_line, quote_line};
ghost use Rattle.gen_source.specs.Generated.{loop_line, mutual_line, step_line, step_lines, group_lines, all_groups};
ghost use Rattle.gen_source.specs.Generated.{group_call, group_calls};

use std::alloc::Global;
use tl_base::NoMemory;

/// How many functions a group calls.
const GROUP: u64 = 100;

/// The source with so many numbered functions (docs/LANGUAGE.md, "Generated sources"). Its one error is want of memory.
pub fn generate(alloc: Global, count: u64) -> Result<String, NoMemory>
    ensures { IfOk result (λ text. string_bytes text ≡ generated count) }
{
    let groups = count.div_ceil(GROUP);
    let mut out = String::new(alloc);
    out.push_str("struct P { a : int64; b : int64 }\n")?;
    push_functions(&mut out, count)?;
    push_groups(&mut out, count, groups)?;
    out.push_str("terra main() : int64\nvar s : int64 = 1\n")?;
    push_group_calls(&mut out, groups)?;
    out.push_str("return s end\nterralib.saveobj(\"gen\", {main = main})\n")?;
    Ok(out)
}

/// Writes the lines of the functions.
fn push_functions(out: &mut String, count: u64) -> Result<(), NoMemory>
    ensures { OnOk result (string_bytes out.new ≡ string_bytes out.old ++ function_lines count) }
{
    for before in 0..count {
        push_function(out, before + 1)?;
    }
    Ok(())
}

/// Writes the line of a function.
fn push_function(out: &mut String, number: u64) -> Result<(), NoMemory>
    ensures { OnOk result (string_bytes out.new ≡ string_bytes out.old ++ function_line number) }
{
    let digit = number % 10;
    match number % 4 {
        1 => push_field_line(out, number, digit),
        2 => push_quote_line(out, number, digit),
        3 => push_loop_line(out, number, digit),
        _ => push_mutual_line(out, number, digit),
    }
}

fn push_field_line(out: &mut String, number: u64, digit: u64) -> Result<(), NoMemory>
    ensures { OnOk result (string_bytes out.new ≡ string_bytes out.old ++ field_line number digit) }
{
    write!(
        out,
        "terra g{number}(x : int64) : int64 var p : P p.a = x p.b = {digit} return p.a + p.b end\n"
    )?;
    Ok(())
}

fn push_quote_line(out: &mut String, number: u64, digit: u64) -> Result<(), NoMemory>
    ensures { OnOk result (string_bytes out.new ≡ string_bytes out.old ++ quote_line number digit) }
{
    write!(
        out,
        "function q{number}(e) return `e * 3 + {digit} end terra g{number}(x : int64) : int64 return [q{number}(x)] end\n"
    )?;
    Ok(())
}

fn push_loop_line(out: &mut String, number: u64, digit: u64) -> Result<(), NoMemory>
    ensures { OnOk result (string_bytes out.new ≡ string_bytes out.old ++ loop_line number digit) }
{
    write!(
        out,
        "terra g{number}(x : int64) : int64 var s = x for i = 0, {digit} do s = s + i end return s end\n"
    )?;
    Ok(())
}

fn push_mutual_line(out: &mut String, number: u64, digit: u64) -> Result<(), NoMemory>
    ensures { OnOk result (string_bytes out.new ≡ string_bytes out.old ++ mutual_line number digit) }
{
    write!(
        out,
        "terra h{number} :: {{int64}} -> int64 \
         terra g{number}(x : int64) : int64 if x < 0 then return x end return h{number}(x - 1) end \
         terra h{number}(x : int64) : int64 if x < {digit} then return x end return g{number}(x - {digit} - 1) end\n"
    )?;
    Ok(())
}

/// Writes the functions that call a group each.
fn push_groups(out: &mut String, count: u64, groups: u64) -> Result<(), NoMemory>
    requires { 100 * groups < count + 100 }
    ensures { OnOk result (string_bytes out.new ≡ string_bytes out.old ++ all_groups count groups) }
{
    for before in 0..groups {
        push_group(out, count, before)?;
    }
    Ok(())
}

/// Writes the function that calls the functions of a group.
fn push_group(out: &mut String, count: u64, before: u64) -> Result<(), NoMemory>
    requires { 100 * before < count }
    ensures { OnOk result (string_bytes out.new ≡ string_bytes out.old ++ group_lines count before) }
{
    let first = GROUP * before;
    let number = before + 1;
    write!(out, "terra m{number}(s : int64) : int64\n")?;
    push_steps(out, first, GROUP.min(count - first))?;
    out.push_str("return s end\n")?;
    Ok(())
}

/// Writes the calls of so many functions behind the first ones.
fn push_steps(out: &mut String, first: u64, count: u64) -> Result<(), NoMemory>
    requires { first + count < 2 ^ 64 }
    ensures { OnOk result (string_bytes out.new ≡ string_bytes out.old ++ step_lines first count) }
{
    for before in 0..count {
        push_step(out, first + (before + 1))?;
    }
    Ok(())
}

/// Writes the call of a function.
fn push_step(out: &mut String, number: u64) -> Result<(), NoMemory>
    ensures { OnOk result (string_bytes out.new ≡ string_bytes out.old ++ step_line number) }
{
    write!(out, "s = (s + g{number}(s % 16)) % 1000000\n")?;
    Ok(())
}

/// Writes the calls of the groups.
fn push_group_calls(out: &mut String, groups: u64) -> Result<(), NoMemory>
    ensures { OnOk result (string_bytes out.new ≡ string_bytes out.old ++ group_calls groups) }
{
    for before in 0..groups {
        push_group_call(out, before + 1)?;
    }
    Ok(())
}

/// Writes the call of a group.
fn push_group_call(out: &mut String, number: u64) -> Result<(), NoMemory>
    ensures { OnOk result (string_bytes out.new ≡ string_bytes out.old ++ group_call number) }
{
    write!(out, "s = m{number}(s)\n")?;
    Ok(())
}
