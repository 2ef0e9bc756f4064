// Which comparisons have one code with the branch on their result.

ghost use Rattle.std.specs.Prelude.{◌≡◌, ◌<◌, ◌&&◌, IfOk, Some, nat_eq, replicate, slice_set};
ghost use Rattle.rv_operators.specs.Codes.{is_comparison};
ghost use Rattle.rv_select.specs.declared.pairs.Reads.TheVariants.{Never};
ghost use Rattle.rv_select.specs.Pairs.{but_pair, counted, counted_steps, counted_blocks, is_once, once_more, pair_at, pair_of, reads_at};
ghost use Rattle.rv_select.specs.Pairs.{reads_of};
ghost use Rattle.tac_form.specs.declared.tac.Instruction.TheVariants as instructions;

use reg_alloc::flow_graph;
use std::alloc::Global;
use tac_form::{Block, Edge, Exit, FlowBlock, Instruction, Number, Operand, Step, Tac};
use terra_words::BinaryOperator;
use tl_base::NoMemory;

/// How often a temporary is read.
#[derive(Clone, Copy, PartialEq, Eq)]
pub enum Reads {
    Never,
    Once,
    Often,
}

/// A comparison and the branch that alone reads its result.
#[derive(Clone, Copy, PartialEq, Eq)]
pub struct Pair {
    pub operator: BinaryOperator,
    pub form: Number,
    pub a: Operand,
    pub b: Operand,
    pub first: Edge,
    pub second: Edge,
}

/// How often each temporary of a function is read.
pub(crate) fn reads_of(alloc: Global, tac: &Tac) -> Result<Vec<Reads>, NoMemory>
    ensures { IfOk result (λ reads. reads.items ≡ reads_of tac.now) }
{
    let graph = flow_graph(alloc, tac)?;
    let mut reads = none_read(alloc, tac.temps as usize)?;
    count_blocks(&mut reads, &graph);
    Ok(reads)
}

/// So many temporaries, none of which is read.
fn none_read(alloc: Global, count: usize) -> Result<Vec<Reads>, NoMemory>
    ensures { IfOk result (λ reads. reads.items ≡ replicate count Never) }
{
    Ok(vec![in alloc; Reads::Never; count]?)
}

/// With what blocks read.
fn count_blocks(reads: &mut [Reads], blocks: &[FlowBlock])
    ensures { reads.new ≡ counted_blocks reads.old blocks.now }
{
    for block in blocks {
        count_steps(reads, block.steps.as_slice());
        count_all(reads, block.reads.as_slice());
    }
}

/// With what the steps of a block read.
fn count_steps(reads: &mut [Reads], steps: &[Step])
    ensures { reads.new ≡ counted_steps reads.old steps.now }
{
    for step in steps {
        count_all(reads, step.reads.as_slice());
    }
}

/// With temporaries that are read.
fn count_all(reads: &mut [Reads], temps: &[u64])
    ensures { reads.new ≡ counted reads.old temps.now }
{
    for t in temps {
        count(reads, *t);
    }
}

fn count(reads: &mut [Reads], t: u64)
    ensures { reads.new ≡ slice_set reads.old t (once_more (reads_at reads.old t)) }
{
    if (t as usize) < reads.len() {
        reads[t as usize] = once_more(reads[t as usize]);
    }
}

/// How often, with one more.
fn once_more(reads: Reads) -> Reads
    ensures { result ≡ once_more reads }
{
    match reads {
        Reads::Never => Reads::Once,
        Reads::Once => Reads::Often,
        Reads::Often => Reads::Often,
    }
}

/// A block's last instruction and its exit, where these are a comparison and the branch that alone reads its result.
#[tactic(auto, unfolding(crate::specs::Pairs::pair_at))]
pub(crate) fn pair_of(reads: &[Reads], block: &Block) -> Option<Pair>
    ensures { result ≡ pair_of reads.now block.now }
{
    let instructions = block.instructions.as_slice();
    if instructions.is_empty() {
        return None;
    }
    pair_at(reads, &instructions[instructions.len() - 1], block.exit)
}

#[tactic(auto, unfolding(crate::specs::Pairs::pair_at))]
fn pair_at(reads: &[Reads], instruction: &Instruction, exit: Exit) -> Option<Pair>
    ensures { result ≡ pair_at reads.now (Some instruction.now) exit }
{
    match instruction {
        Instruction::Compute(d, operator, form, a, b) => {
            compared_at(reads, *d, *operator, *form, *a, *b, exit)
        }
        _ => None,
    }
}

/// A comparison's operator, form and operands with the edges of a branch on its result.
#[tactic(auto, unfolding(crate::specs::Pairs::pair_at))]
fn compared_at(
    reads: &[Reads],
    d: u64,
    operator: BinaryOperator,
    form: Number,
    a: Operand,
    b: Operand,
    exit: Exit,
) -> Option<Pair>
    ensures { result ≡ pair_at reads.now (Some (instructions.Compute d operator form a b)) exit }
{
    match exit {
        Exit::Branch(Operand::Temp(t), first, second) if is_tested(reads, d, operator, t) => {
            Some(Pair {
                operator,
                form,
                a,
                b,
                first,
                second,
            })
        }
        _ => None,
    }
}

/// The instructions of a block that have code of their own: all, but for a comparison that has one code with its branch.
pub(crate) fn plain_of(instructions: &[Instruction], pair: Option<Pair>) -> &[Instruction]
    ensures { result.now ≡ but_pair pair instructions.now }
{
    match pair {
        Some(_) if !instructions.is_empty() => &instructions[..instructions.len() - 1],
        _ => instructions,
    }
}

/// Whether a branch on a temporary is on the result of a comparison, and alone reads it.
fn is_tested(reads: &[Reads], d: u64, operator: BinaryOperator, t: u64) -> bool
    ensures { result ≡ (nat_eq d t && (is_comparison operator && is_once (reads_at reads.now t))) }
{
    d == t && is_comparison(operator) && is_once(reads, t)
}

fn is_comparison(operator: BinaryOperator) -> bool
    ensures { result ≡ is_comparison operator }
{
    matches!(
        operator,
        BinaryOperator::Equal
            | BinaryOperator::NotEqual
            | BinaryOperator::Less
            | BinaryOperator::LessEqual
            | BinaryOperator::Greater
            | BinaryOperator::GreaterEqual
    )
}

fn is_once(reads: &[Reads], t: u64) -> bool
    ensures { result ≡ is_once (reads_at reads.now t) }
{
    (t as usize) < reads.len() && reads[t as usize] == Reads::Once
}
