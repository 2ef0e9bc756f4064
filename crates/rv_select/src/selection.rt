// The code of a function.

ghost use Rattle.std.specs.Prelude.{◌≡◌, true, ◌*◌, ◌+◌, ◌^◌, ◌<◌, ◌≤◌, ◌&&◌, [], ◌∷◌, ◌++◌, map, length, IfOk, IsTrue, None, OnOk};
ghost use Rattle.std.specs.List.{list_all};
ghost use Rattle.rv_isa.specs.Table.{word_of};
ghost use Rattle.rv_select.specs.Calls.{IsSelected, KeepsWithin, all_has_code, block_code, block_has_code, block_starts, blocks_calls};
ghost use Rattle.rv_select.specs.Calls.{blocks_code, call_jump, called, end_code, exit_code, has_code, has_exit_code, head_code};
ghost use Rattle.rv_select.specs.Calls.{held_behind, instruction_calls, instruction_code, instructions_calls, instructions_code};
ghost use Rattle.rv_select.specs.Calls.{jump_unless_last, last_address, pair_code, returned, starts_from};
ghost use Rattle.rv_select.specs.Entering.{begun, entered, received, words_offset};
ghost use Rattle.rv_select.specs.Pairs.{pair_of, plain_of, reads_of};
ghost use Rattle.rv_select.specs.Places.{as_counting, extent_of, frame_bytes, layout_with, with_counting, with_homes, with_reads};
ghost use Rattle.rv_select.specs.Settings.{setting_of};
ghost use Rattle.rv_select.specs.Shapes.{jump, start_of};
ghost use Rattle.tac_form.specs.declared.tac.Instruction.TheVariants as instructions;

use crate::asked::asked_homes;
use crate::calls::{makes_calls, push_call_begun, push_call_ended, push_call_jump, push_given};
use crate::compared::push_compared;
use crate::entries::{push_begun, push_entered, push_left, push_received};
use crate::exits::{push_exit, push_jump};
use crate::instructions::{held_after, push_instruction};
use crate::pairs::{Pair, Reads, pair_of, plain_of, reads_of};
use crate::selected::{Call, Code};
use crate::settings::{Extent, Setting, setting_of};
use crate::short::{is_near, is_short};
use reg_alloc::{Assignment, Home};
use std::alloc::Global;
use tac_form::{Block, Destination, Exit, Instruction, Part, Tac};
use tl_base::limits::MAX_VALUE_BYTES;
use tl_base::{FnId, NoMemory, Place};

/// The address at which the next word stands in code that begins at address 0. No memory has code of 2 ^ 27 words.
fn address(code: &[u32]) -> Result<u64, NoMemory>
    ensures at { IfOk result (λ at. at ≡ 4 * length code.now) }
    ensures few { IfOk result (λ at. at ≤ 2 ^ 29) }
{
    if code.len() <= 1 << 27 {
        Ok(4 * code.len() as u64)
    } else {
        Err(NoMemory)
    }
}

/// A jump to a function, which stands in the list of calls.
fn push_jump_to(code: &mut Vec<u32>, calls: &mut Vec<Call>, callee: FnId) -> Result<(), NoMemory>
    ensures code { OnOk result (code.new.items ≡ code.old.items ++ map word_of (call_jump (4 * length code.old.items) 0)) }
    ensures calls { OnOk result (calls.new.items ≡ calls.old.items ++ record { at = length code.old.items; callee = callee } ∷ []) }
{
    let at = address(code)?;
    calls.push(Call {
        at: code.len() as u64,
        callee,
    })?;
    push_call_jump(code, at, 0)
}

/// A call of a function, where T0 may hold the word of a temporary.
fn push_called(
    code: &mut Vec<u32>,
    calls: &mut Vec<Call>,
    homes: &[Option<Home>],
    sizes: &[u64],
    counts: bool,
    held: Option<u64>,
    to: Destination,
    at: Place,
    callee: FnId,
    arguments: &[Part],
) -> Result<(), NoMemory>
    ensures code { OnOk result (code.new.items ≡ code.old.items
        ++ map word_of (called (with_counting homes.now counts) sizes.now (λ f. 0) (4 * length code.old.items) held to at callee
        arguments.now)) }
    ensures calls { OnOk result (calls.new.items ≡ calls.old.items
        ++ instruction_calls (with_counting homes.now counts) (length code.old.items) held (instructions.Call to at callee arguments.now)) }
{
    push_call_begun(code, homes, counts, held, at, arguments)?;
    push_jump_to(code, calls, callee)?;
    push_call_ended(code, homes, sizes, to)
}

/// The code of an instruction, where T0 may hold the word of a temporary.
fn push_one(
    code: &mut Vec<u32>,
    calls: &mut Vec<Call>,
    homes: &[Option<Home>],
    sizes: &[u64],
    counts: bool,
    held: Option<u64>,
    instruction: &Instruction,
) -> Result<(), NoMemory>
    requires { IsTrue (has_code instruction.now) }
    ensures code { OnOk result (code.new.items ≡ code.old.items
        ++ map word_of (instruction_code (with_counting homes.now counts) sizes.now (λ f. 0) (4 * length code.old.items) held
        instruction.now)) }
    ensures calls { OnOk result (calls.new.items ≡ calls.old.items
        ++ instruction_calls (with_counting homes.now counts) (length code.old.items) held instruction.now) }
{
    match instruction {
        Instruction::Call(to, at, callee, arguments) => push_called(
            code,
            calls,
            homes,
            sizes,
            counts,
            held,
            *to,
            *at,
            *callee,
            arguments.as_slice(),
        ),
        _ => push_instruction(code, homes, held, instruction),
    }
}

/// The code of instructions. The answer is the temporary whose word T0 holds behind them, if any.
fn push_all(
    code: &mut Vec<u32>,
    calls: &mut Vec<Call>,
    homes: &[Option<Home>],
    sizes: &[u64],
    counts: bool,
    instructions: &[Instruction],
) -> Result<Option<u64>, NoMemory>
    requires { IsTrue (list_all has_code instructions.now) }
    ensures code { OnOk result (code.new.items ≡ code.old.items
        ++ map word_of (instructions_code (with_counting homes.now counts) sizes.now (λ f. 0) (4 * length code.old.items) None
        instructions.now)) }
    ensures calls { OnOk result (calls.new.items ≡ calls.old.items
        ++ instructions_calls (with_counting homes.now counts) sizes.now (length code.old.items) None instructions.now) }
    ensures held { IfOk result (λ held. held ≡ held_behind None instructions.now) }
{
    let mut held = None;
    for instruction in instructions {
        push_one(code, calls, homes, sizes, counts, held, instruction)?;
        held = held_after(instruction);
    }
    Ok(held)
}

/// A jump from where the code ends.
fn push_jump_here(code: &mut Vec<u32>, short: bool, to: u64) -> Result<(), NoMemory>
    ensures { OnOk result (code.new.items ≡ code.old.items ++ map word_of (jump short (4 * length code.old.items) to)) }
{
    let at = address(code)?;
    push_jump(code, short, at, to)
}

/// A jump to the code that leaves the function, unless that stands behind.
fn push_jump_unless_last(code: &mut Vec<u32>, setting: Setting, last: u64) -> Result<(), NoMemory>
    ensures { OnOk result (code.new.items ≡ code.old.items
        ++ map word_of (jump_unless_last setting.short setting.next (4 * length code.old.items) last)) }
{
    match setting.next {
        Some(_) => push_jump_here(code, setting.short, last),
        None => Ok(()),
    }
}

/// The code by which a function gives back a part, of which T0 may hold the word, and goes to where it is left.
fn push_returned(
    code: &mut Vec<u32>,
    homes: &[Option<Home>],
    setting: Setting,
    held: Option<u64>,
    part: Part,
    last: u64,
) -> Result<(), NoMemory>
    ensures { OnOk result (code.new.items ≡ code.old.items
        ++ map word_of (returned (with_homes homes.now) setting held (4 * length code.old.items) last part)) }
{
    push_given(code, homes, held, part)?;
    push_jump_unless_last(code, setting, last)
}

/// The code of an exit, where T0 may hold the word of a temporary.
fn push_end(
    code: &mut Vec<u32>,
    homes: &[Option<Home>],
    setting: Setting,
    held: Option<u64>,
    starts: &[u64],
    last: u64,
    exit: &Exit,
) -> Result<(), NoMemory>
    requires { IsTrue (has_exit_code exit.now) }
    ensures { OnOk result (code.new.items ≡ code.old.items
        ++ map word_of (exit_code (with_homes homes.now) setting held (4 * length code.old.items) (start_of starts.now) last exit.now)) }
{
    match exit {
        Exit::Return(part) => push_returned(code, homes, setting, held, *part, last),
        _ => {
            let at = address(code)?;
            push_exit(code, homes, setting, held, at, starts, exit)
        }
    }
}

/// The code of what ends a block, where T0 may hold the word of a temporary: its exit, or a comparison and its exit.
fn push_block_end(
    code: &mut Vec<u32>,
    homes: &[Option<Home>],
    setting: Setting,
    held: Option<u64>,
    starts: &[u64],
    last: u64,
    pair: Option<Pair>,
    exit: &Exit,
) -> Result<(), NoMemory>
    requires { IsTrue (has_exit_code exit.now) }
    ensures { OnOk result (code.new.items ≡ code.old.items
        ++ map word_of (end_code (with_homes homes.now) setting held (4 * length code.old.items) (start_of starts.now) last pair
        exit.now)) }
{
    match pair {
        Some(pair) => push_pair(code, homes, setting, held, starts, pair),
        None => push_end(code, homes, setting, held, starts, last, exit),
    }
}

/// The code of a comparison and the branch on its result, where the code ends.
#[tactic(auto, unfolding(crate::specs::Calls::pair_code))]
fn push_pair(
    code: &mut Vec<u32>,
    homes: &[Option<Home>],
    setting: Setting,
    held: Option<u64>,
    starts: &[u64],
    pair: Pair,
) -> Result<(), NoMemory>
    ensures { OnOk result (code.new.items ≡ code.old.items
        ++ map word_of (pair_code (with_homes homes.now) setting held (4 * length code.old.items) (start_of starts.now) pair)) }
{
    let at = address(code)?;
    push_compared(
        code,
        homes,
        setting,
        held,
        at,
        starts,
        pair.operator,
        pair.form,
        pair.a,
        pair.b,
        pair.first,
        pair.second,
    )
}

/// The code of a block that so many follow.
fn push_block(
    code: &mut Vec<u32>,
    calls: &mut Vec<Call>,
    homes: &[Option<Home>],
    sizes: &[u64],
    starts: &[u64],
    last: u64,
    reads: &[Reads],
    extent: Extent,
    rest: u64,
    block: &Block,
) -> Result<(), NoMemory>
    requires { IsTrue (block_has_code block.now) }
    ensures code { OnOk result (code.new.items ≡ code.old.items
        ++ map word_of (block_code (with_reads homes.now reads.now extent) sizes.now (λ f. 0) (start_of starts.now) last
        (4 * length code.old.items) rest block.now)) }
    ensures calls { OnOk result (calls.new.items ≡ calls.old.items
        ++ instructions_calls (with_reads homes.now reads.now extent) sizes.now (length code.old.items) None
        (plain_of reads.now block.now)) }
{
    let pair = pair_of(reads, block);
    let plain = plain_of(block.instructions.as_slice(), pair);
    let held = push_all(code, calls, homes, sizes, extent.counts, plain)?;
    let setting = setting_of(extent, rest);
    push_block_end(code, homes, setting, held, starts, last, pair, &block.exit)
}

/// The code of blocks, each of whose addresses goes to a list.
fn push_blocks(
    code: &mut Vec<u32>,
    calls: &mut Vec<Call>,
    begins: &mut Vec<u64>,
    homes: &[Option<Home>],
    sizes: &[u64],
    starts: &[u64],
    last: u64,
    reads: &[Reads],
    extent: Extent,
    blocks: &[Block],
) -> Result<(), NoMemory>
    requires { IsTrue (list_all block_has_code blocks.now) }
    ensures code { OnOk result (code.new.items ≡ code.old.items
        ++ map word_of (blocks_code (with_reads homes.now reads.now extent) sizes.now (λ f. 0) (start_of starts.now) last
        (4 * length code.old.items) blocks.now)) }
    ensures calls { OnOk result (calls.new.items ≡ calls.old.items
        ++ blocks_calls (with_reads homes.now reads.now extent) sizes.now (length code.old.items) blocks.now) }
    ensures begins { OnOk result (begins.new.items ≡ begins.old.items
        ++ starts_from (with_reads homes.now reads.now extent) sizes.now (4 * length code.old.items) blocks.now) }
{
    let mut rest = blocks.len() as u64;
    for block in blocks {
        rest = rest.saturating_sub(1);
        begins.push(address(code)?)?;
        push_block(
            code, calls, homes, sizes, starts, last, reads, extent, rest, block,
        )?;
    }
    Ok(())
}

/// Where the parameters' words begin in the frame, and the bytes of the frame.
fn frame_of(homes: &[Option<Home>], tac: &Tac) -> Result<(u64, u64), NoMemory>
    ensures words { IfOk result (λ both. both.0 ≡ words_offset (layout_with tac.now homes.now)) }
    ensures bytes { IfOk result (λ both. both.1 ≡ frame_bytes (layout_with tac.now homes.now)) }
    ensures few { IfOk result (λ both. both.0 < 2 ^ 63) }
{
    let temps = homes.len() as u64;
    let areas = tac.areas.as_slice().len() as u64;
    let parameters = tac.parameters.as_slice().len() as u64;
    if temps >= 1 << 56 || areas >= 1 << 52 || parameters >= 1 << 56 {
        return Err(NoMemory);
    }
    let words = 88 + 8 * temps + MAX_VALUE_BYTES * areas;
    Ok((words, words + 8 * parameters))
}

/// The words by which a function begins as the entry. The answer is how many they are.
#[tactic(auto, using(crate::proofs::Numbers::pushed_words))]
fn push_entry(code: &mut Vec<u32>, tac: &Tac) -> Result<u64, NoMemory>
    ensures code { OnOk result (code.new.items ≡ code.old.items ++ map word_of (begun tac.now)) }
    ensures words { IfOk result (λ words. words ≡ length (begun tac.now)) }
{
    let before = code.len();
    push_begun(code, tac)?;
    Ok((code.len() - before) as u64)
}

/// The words by which a call enters a function, and by which its parameters go where it takes them.
fn push_call_head(
    code: &mut Vec<u32>,
    homes: &[Option<Home>],
    extent: Extent,
    tac: &Tac,
    words: u64,
    bytes: u64,
) -> Result<(), NoMemory>
    requires extent { extent ≡ extent_of (as_counting extent.counts tac.now) }
    requires words { words < 2 ^ 63 }
    requires bytes { 1 ≤ bytes }
    ensures { OnOk result (code.new.items ≡ code.old.items
        ++ map word_of (entered (layout_with (as_counting extent.counts tac.now) homes.now) bytes tac.now.frame
        ++ received (layout_with (as_counting extent.counts tac.now) homes.now) tac.now.areas words tac.now.parameters)) }
{
    push_entered(code, homes, extent, bytes, tac.frame)?;
    push_received(
        code,
        homes,
        tac.areas.as_slice(),
        tac.parameters.as_slice(),
        words,
    )
}

/// What there is to know of a function's code besides its words.
#[derive(Drop)]
struct Head {
    entry: u64,
    frame: u64,
}

/// The code that comes before the blocks of a function.
fn push_head(
    code: &mut Vec<u32>,
    homes: &[Option<Home>],
    extent: Extent,
    tac: &Tac,
) -> Result<Head, NoMemory>
    requires { extent ≡ extent_of (as_counting extent.counts tac.now) }
    ensures code { OnOk result (code.new.items ≡ code.old.items
        ++ map word_of (head_code (layout_with (as_counting extent.counts tac.now) homes.now) (as_counting extent.counts tac.now))) }
    ensures entry { IfOk result (λ head. head.entry ≡ length (begun tac.now)) }
    ensures frame { IfOk result (λ head. head.frame ≡ frame_bytes (layout_with (as_counting extent.counts tac.now) homes.now)) }
{
    let (words, frame) = frame_of(homes, tac)?;
    let entry = push_entry(code, tac)?;
    push_call_head(code, homes, extent, tac, words, frame)?;
    Ok(Head { entry, frame })
}

/// The code of a function's blocks.
fn push_body(
    code: &mut Vec<u32>,
    calls: &mut Vec<Call>,
    begins: &mut Vec<u64>,
    homes: &[Option<Home>],
    tac: &Tac,
    starts: &[u64],
    last: u64,
    reads: &[Reads],
    extent: Extent,
) -> Result<(), NoMemory>
    requires has_code { IsTrue (all_has_code tac.now) }
    requires reads { reads.now ≡ reads_of (as_counting extent.counts tac.now) }
    requires extent { extent ≡ extent_of (as_counting extent.counts tac.now) }
    ensures code { OnOk result (code.new.items ≡ code.old.items
        ++ map word_of (blocks_code (layout_with (as_counting extent.counts tac.now) homes.now) tac.now.areas (λ f. 0)
        (start_of starts.now) last (4 * length code.old.items) tac.now.blocks)) }
    ensures calls { OnOk result (calls.new.items ≡ calls.old.items
        ++ blocks_calls (layout_with (as_counting extent.counts tac.now) homes.now) tac.now.areas (length code.old.items)
        tac.now.blocks) }
    ensures begins { OnOk result (begins.new.items ≡ begins.old.items
        ++ starts_from (layout_with (as_counting extent.counts tac.now) homes.now) tac.now.areas (4 * length code.old.items)
        tac.now.blocks) }
{
    push_blocks(
        code,
        calls,
        begins,
        homes,
        tac.areas.as_slice(),
        starts,
        last,
        reads,
        extent,
        tac.blocks.as_slice(),
    )
}

/// Where the blocks begin, and where the code that leaves the function does.
#[derive(Drop)]
struct Places {
    starts: Vec<u64>,
    last: u64,
}

/// Whether a function is near and whether it is short, how many blocks it has, whether it makes calls, and whether it is to count.
#[tactic(auto, unfolding(crate::specs::Places::is_near, crate::specs::Places::is_short, crate::specs::Places::makes_calls))]
fn extent_of(tac: &Tac, counts: bool) -> Extent
    ensures { result ≡ extent_of (as_counting counts tac.now) }
{
    Extent {
        near: is_near(tac),
        short: is_short(tac),
        blocks: tac.blocks.as_slice().len() as u64,
        calls: makes_calls(tac),
        counts,
    }
}

/// The addresses of a function's blocks. Their code is as long wherever they stand, so it is put somewhere to see them.
fn find_places(
    alloc: Global,
    homes: &[Option<Home>],
    tac: &Tac,
    reads: &[Reads],
    extent: Extent,
) -> Result<Places, NoMemory>
    requires has_code { IsTrue (all_has_code tac.now) }
    requires reads { reads.now ≡ reads_of (as_counting extent.counts tac.now) }
    requires extent { extent ≡ extent_of (as_counting extent.counts tac.now) }
    ensures starts { IfOk result (λ places. places.starts.items
        ≡ block_starts (layout_with (as_counting extent.counts tac.now) homes.now) (as_counting extent.counts tac.now) 0) }
    ensures last { IfOk result (λ places. places.last
        ≡ last_address (layout_with (as_counting extent.counts tac.now) homes.now) (as_counting extent.counts tac.now) 0) }
{
    let mut code = Vec::new(alloc);
    let mut calls = Vec::new(alloc);
    let mut starts = Vec::new(alloc);
    push_head(&mut code, homes, extent, tac)?;
    push_body(
        &mut code,
        &mut calls,
        &mut starts,
        homes,
        tac,
        &[],
        0,
        reads,
        extent,
    )?;
    let last = address(&code)?;
    Ok(Places { starts, last })
}

/// The machine's code of a function by its three-address code and an assignment, which counts or does not.
fn select_with(
    alloc: Global,
    tac: &Tac,
    assignment: &Assignment,
    counts: bool,
) -> Result<Code, NoMemory>
    requires { IsTrue (all_has_code tac.now) }
    ensures selected { IfOk result (λ code. IsSelected (as_counting counts tac.now) assignment.now code) }
    ensures within { IfOk result (λ code. KeepsWithin (as_counting counts tac.now) assignment.now code) }
{
    let reads = reads_of(alloc, tac)?;
    let given = asked_homes(alloc, tac, &reads, assignment.as_slice())?;
    let homes = given.as_slice();
    let extent = extent_of(tac, counts);
    let places = find_places(alloc, homes, tac, &reads, extent)?;
    let mut words = Vec::new(alloc);
    let mut calls = Vec::new(alloc);
    let mut starts = Vec::new(alloc);
    let head = push_head(&mut words, homes, extent, tac)?;
    push_body(
        &mut words,
        &mut calls,
        &mut starts,
        homes,
        tac,
        &places.starts,
        places.last,
        &reads,
        extent,
    )?;
    push_left(&mut words, homes, extent, head.frame, tac.frame)?;
    Ok(Code {
        words,
        calls,
        entry: head.entry,
        frame: head.frame,
    })
}

/// The machine's code of a function by its three-address code and an assignment. Its temporaries stand where the assignment says, but for
/// those whose words are only ever taken from T0, and parameters that have a slot, which stay where they are passed.
pub fn select(alloc: Global, tac: &Tac, assignment: &Assignment) -> Result<Code, NoMemory>
    requires { IsTrue (all_has_code tac.now) }
    ensures selected { IfOk result (λ code. IsSelected tac.now assignment.now code) }
    // By the weights of three-address code: at most 250 words and 136 private bytes a typed node, and 65,536 bytes more, where the code
    // is sized.
    ensures within { IfOk result (λ code. KeepsWithin tac.now assignment.now code) }
{
    select_with(alloc, tac, assignment, tac.counts)
}

/// The same of code that counts, whether the three-address code says so or not: S1 holds the counts that are left, and before each count
/// one is taken from it, or an EBREAK is reached where S1 is 0.
pub fn select_counted(alloc: Global, tac: &Tac, assignment: &Assignment) -> Result<Code, NoMemory>
    requires { IsTrue (all_has_code tac.now) }
    ensures selected { IfOk result (λ code. IsSelected (as_counting true tac.now) assignment.now code) }
    ensures within { IfOk result (λ code. KeepsWithin tac.now assignment.now code) }
{
    select_with(alloc, tac, assignment, true)
}
