// The code of a function.

ghost use Rattle.std.specs.Prelude.{◌≡◌, ◌++◌, ◌∷◌, [], map, length, option_map, slice_get, Some, IfOk, IfSome, OnOk};
ghost use Rattle.terra_term.specs.Stores as stores;
ghost use Rattle.terra_term.specs.Stores.{callable_of, contents_of};
ghost use Rattle.terra_term.specs.Sizes.{body_size, typed_item_size};
ghost use Rattle.terra_term.specs.Planted.{typed_trees};
ghost use Rattle.terra_term.specs.Held.{Held};
ghost use Rattle.terra_eval.specs.Trees.{callable_tree};
ghost use Rattle.tac_lower.specs.Pieces.{given};
ghost use Rattle.tac_lower.specs.Laws.{GoodWhereTyped};
ghost use Rattle.tac_lower.specs.Lowering.{are_narrow, code_of, ending, lowered, received, type_of_name, unreached};
ghost use Rattle.tac_lower.specs.Items.{ends};
ghost use Rattle.tac_lower.specs.Data.{ending_of, result_of};
ghost use Rattle.tac_lower.specs.Works.{begun};
ghost use Rattle.tac_lower.specs.Views.{destinations_of, parts_of_body};

use crate::around::Around;
use crate::block::blocks_of;
use crate::emit::destination;
use crate::item::Ending;
use crate::scope::declare_all;
use crate::term::lower_body;
use crate::value::{NO_WORD, Value, given};
use crate::work::Work;
use std::alloc::{AllocError, Global};
use tac_form::{
    Block, BlockList, Destination, DestinationList, Exit, InstructionList, Signature, SizeList,
    Tac, TypeIds,
};
use terra_eval::frame::frame_of;
use terra_eval::nodes::{Callable, callable_of};
use terra_eval::types::bytes_at;
use terra_term::{FunctionState, Store, TypedName};
use terra_types::Types;
use terra_words::FaultKind;
use tl_base::limits::MAX_VALUE_BYTES;
use tl_base::{FnId, NoMemory, TermId, TypeId};

const UNIT: TypeId = TypeId(9);

/// The three-address code of a function, where the functions that stand as values are `entries`, in order; `None` exactly where the
/// function isn't typed. Machine code can be made of it where the function has a place in a text and at most 131,072 typed nodes. Code
/// that no 64 bits count finds no memory, nor does a function of 4,294,967,295 nodes or more.
pub fn lower(store: &Store, entries: &[FnId], f: FnId) -> Result<Option<Tac>, NoMemory>
    ensures code { IfOk result (λ code. code ≡ option_map (lowered (contents_of store.now) entries.now)
        (callable_of (contents_of store.now) f)) }
    ensures good { IfOk result (λ code. IfSome code (λ tac. GoodWhereTyped (contents_of store.now) entries.now f tac)) }
{
    match callable_of(store, f) {
        Some(k) => {
            let nodes = nodes_of(store, f)?;
            let code = lower_callable(store, entries, &k, nodes)?;
            Ok(Some(code))
        }
        None => Ok(None),
    }
}

/// How many nodes a function's typed term has.
fn nodes_of(store: &Store, f: FnId) -> Result<u64, NoMemory>
    ensures { IfOk result (λ n. (k : stores.Callable) → callable_of (contents_of store.now) f ≡ Some k → n ≡ (body_size k.body).nodes) }
{
    let function = store.function(f).ok_or(NoMemory)?;
    match function.state {
        FunctionState::Typed(_, made) => nodes_in(store, made),
        FunctionState::Undefined => Err(NoMemory),
        FunctionState::Defined(_) => Err(NoMemory),
        FunctionState::Typing(_) => Err(NoMemory),
        FunctionState::Refused(_, _) => Err(NoMemory),
    }
}

/// How many nodes a typed node has with its parts. More than are counted find no memory.
fn nodes_in(store: &Store, node: TermId) -> Result<u64, NoMemory>
    ensures { IfOk result (λ n. option_map (λ item. (typed_item_size item).nodes) (slice_get (typed_trees store.now.typed) node.0)
        ≡ Some n) }
{
    let size = store.size_of_typed(node).ok_or(NoMemory)?;
    if size.nodes == u32::MAX {
        return Err(NoMemory);
    }
    Ok(u64::from(size.nodes))
}

/// The code of a function that is typed, of so many nodes.
fn lower_callable(
    store: &Store,
    entries: &[FnId],
    k: &Callable<'_>,
    nodes: u64,
) -> Result<Tac, NoMemory>
    requires { nodes ≡ (body_size (callable_tree store.now k.now).body).nodes }
    ensures { IfOk result (λ code. code ≡ lowered (contents_of store.now) entries.now (callable_tree store.now k.now)) }
{
    if are_narrow(store.types(), k.parameters) {
        return code_of(store, entries, k, nodes);
    }
    unreached(store, k, nodes)
}

/// Whether values of the types of all these have at most the bytes that values have.
fn are_narrow(types: &Types, names: &[TypedName]) -> bool
    ensures { result ≡ are_narrow types.now (map type_of_name names.now) }
{
    for name in names {
        if bytes_at(types, name.of) > MAX_VALUE_BYTES {
            return false;
        }
    }
    true
}

/// The code of a function that calls reach.
fn code_of(store: &Store, entries: &[FnId], k: &Callable<'_>, nodes: u64) -> Result<Tac, NoMemory>
    requires { nodes ≡ (body_size (callable_tree store.now k.now).body).nodes }
    ensures { IfOk result (λ code. code ≡ code_of (contents_of store.now) entries.now (callable_tree store.now k.now)) }
{
    let alloc = store.allocator();
    let frame = frame_of(alloc, store, k)?;
    let around = Around {
        store,
        entries,
        homes: &frame.homes,
    };
    let mut work = Work::new(alloc);
    let parameters = lower_parts(&around, k, &mut work)?;
    let temps = work.temps();
    let (items, areas) = work.into_parts();
    let blocks = blocks_of(alloc, items)?;
    let signature = signature(alloc, k)?;
    Ok(Tac {
        nodes,
        signature,
        place: k.at,
        counts: false,
        frame: frame.size,
        temps,
        areas: SizeList::from_vec(areas),
        parameters: DestinationList::from_vec(parameters),
        blocks: BlockList::from_vec(blocks),
    })
}

/// The code of a function's parameters, its body and its end; gives where the parameters go.
fn lower_parts(
    around: &Around<'_>,
    k: &Callable<'_>,
    work: &mut Work,
) -> Result<Vec<Destination>, NoMemory>
    requires { work.now ≡ begun }
    ensures parameters { IfOk result (λ tos. tos.items ≡ (destinations_of around.now k.now).result) }
    ensures code { OnOk result (work.new.code ≡ (parts_of_body around.now k.now).code
        ++ ending (callable_tree around.now.store.now k.now) ∷ []) }
    ensures used { OnOk result (work.new.used ≡ (parts_of_body around.now k.now).used) }
{
    let parameters = received(around.types(), k.parameters, work)?;
    let values = values_of(work.allocator(), &parameters)?;
    declare_all(around, k.at, k.parameters, &values, work)?;
    lower_body(around, k.node, k.body, work)?;
    work.end(ending(k))?;
    Ok(parameters)
}

/// The code of a function with a parameter that no value goes to. It faults at once.
fn unreached(store: &Store, k: &Callable<'_>, nodes: u64) -> Result<Tac, NoMemory>
    requires { nodes ≡ (body_size (callable_tree store.now k.now).body).nodes }
    ensures { IfOk result (λ code. code ≡ unreached (callable_tree store.now k.now)) }
{
    let alloc = store.allocator();
    let signature = signature(alloc, k)?;
    let instructions = InstructionList::from_vec(Vec::new(alloc));
    let exit = Exit::Fail(FaultKind::NoReturn, k.at);
    let mut blocks = Vec::new(alloc);
    blocks.push(Block { instructions, exit })?;
    Ok(Tac {
        nodes,
        signature,
        place: k.at,
        counts: false,
        frame: 0,
        temps: 0,
        areas: SizeList::from_vec(Vec::new(alloc)),
        parameters: DestinationList::from_vec(Vec::new(alloc)),
        blocks: BlockList::from_vec(blocks),
    })
}

/// Where parameters go.
fn received(
    types: &Types,
    names: &[TypedName],
    work: &mut Work,
) -> Result<Vec<Destination>, NoMemory>
    ensures parameters { IfOk result (λ tos. tos.items ≡ (received types.now names.now work.old.used).result) }
    ensures work { OnOk result (work.new ≡ record work.old { used = (received types.now names.now work.old.used).used }) }
{
    let mut parameters = Vec::new(work.allocator());
    for name in names {
        let to = destination(types, name.of, work)?;
        parameters.push(to)?;
    }
    Ok(parameters)
}

/// What is where parameters went.
fn values_of(alloc: Global, parameters: &[Destination]) -> Result<Vec<Value>, AllocError>
    ensures { IfOk result (λ vs. map result_of vs.items ≡ map given parameters.now) }
{
    let mut values = Vec::new(alloc);
    for to in parameters {
        values.push(given(*to))?;
    }
    Ok(values)
}

/// A body that ends gives nothing, which is a fault where a result is due.
fn ending(k: &Callable<'_>) -> Ending
    ensures { (store : Held) → ends (ending_of result) ≡ ending (callable_tree store k.now) }
{
    if k.result.0 == UNIT.0 {
        Ending::Gives(NO_WORD.part())
    } else {
        Ending::Fails(FaultKind::NoReturn, k.at)
    }
}

fn signature(alloc: Global, k: &Callable<'_>) -> Result<Signature, AllocError>
    ensures { IfOk result (λ s. s ≡ record { params = map type_of_name k.now.parameters.now; result = k.now.result }) }
{
    let mut params = Vec::new(alloc);
    for name in k.parameters {
        params.push(name.of)?;
    }
    Ok(Signature {
        params: TypeIds::from_vec(params),
        result: k.result,
    })
}
