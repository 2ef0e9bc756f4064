// Declarations.

ghost use Rattle.std.specs.Prelude.{◌≡◌, ◌+◌, map, length, slice_get, MatchOption};
ghost use Rattle.std.specs.Option.{option_copied, option_map};
ghost use Rattle.terra_eval.specs.Views.{home_of};
ghost use Rattle.tac_lower.specs.Pieces.{declare, declare_all, declare_at, word_of};
ghost use Rattle.tac_lower.specs.Data.{result_of};
ghost use Rattle.tac_lower.specs.Works.{Declared, PutScope};
ghost use Rattle.tac_lower.specs.Views.{around_of};

use crate::around::Around;
use crate::emit::{copied, placed};
use crate::value::{Holder, NO_WORD, Value};
use crate::work::Work;
use tac_form::{Address, Instruction, Operand, Spot};
use terra_eval::frame::Home;
use terra_term::TypedName;
use terra_types::Types;
use tl_base::{NoMemory, Place};

/// The next declaration declares a variable, with its value or without.
pub(crate) fn declare(
    around: &Around<'_>,
    at: Place,
    name: TypedName,
    v: Option<Value>,
    work: &mut Work,
) -> Result<(), NoMemory>
    ensures { Declared result work.old work.new
        (declare (around_of around.now) at name (option_map result_of v) work.old.next work.old.scope work.old.used) 1 }
{
    let home = around.home(work.next());
    declare_at(around.types(), at, name, v, home, work)?;
    work.pass()
}

/// A variable is at home somewhere.
fn declare_at(
    types: &Types,
    at: Place,
    name: TypedName,
    v: Option<Value>,
    home: Home,
    work: &mut Work,
) -> Result<(), NoMemory>
    ensures { PutScope result work.old work.new
        (declare_at types.now at name (option_map result_of v) (home_of home) work.old.scope work.old.used) }
{
    match home {
        Home::ByValue => {
            let a = match v {
                Some(v) => v.word(),
                None => Operand::Constant(0),
            };
            let t = work.temp()?;
            work.put(Instruction::Copy(t, a))?;
            work.bind(name.symbol, Holder::Temp(t))
        }
        Home::InFrame(offset) => {
            match v {
                Some(v) => placed(
                    types,
                    name.of,
                    Spot::Region(at, Address::Frame(offset)),
                    v,
                    work,
                )?,
                None => {}
            }
            work.bind(name.symbol, Holder::Offset(offset))
        }
    }
}

/// The value at a position, if there is one.
fn given_at(values: &[Value], i: usize) -> Option<Value>
    ensures { option_map result_of result ≡ slice_get (map result_of values.now) i }
{
    values.get(i).copied()
}

/// The next declarations declare variables, with their values.
pub(crate) fn declare_all(
    around: &Around<'_>,
    at: Place,
    names: &[TypedName],
    values: &[Value],
    work: &mut Work,
) -> Result<(), NoMemory>
    ensures { Declared result work.old work.new
        (declare_all (around_of around.now) at names.now (map result_of values.now) work.old.next work.old.scope work.old.used)
        (length names.now) }
{
    for (i, name) in names.iter().enumerate() {
        declare(around, at, *name, given_at(values, i), work)?;
    }
    Ok(())
}
