// What is raised where Lua values meet Terra code.

ghost use Rattle.std.specs.Prelude.{◌≡◌, IfOk};
ghost use Rattle.std.specs.String.{string_bytes};
ghost use Rattle.exotype.specs.Faults.{fault_text};

use lua_value::{Kind, LibFn};
use std::alloc::Global;
use tl_base::NoMemory;

/// Why specialising, or a function of the library that works on Terra code, raises.
#[derive(Clone, Copy, PartialEq, Eq)]
pub enum Fault {
    /// A value stands where a type is wanted.
    NotAType,
    /// A value of this kind is no term, or no symbol, table of symbols or name where one is wanted.
    InTerraCode(Kind),
    /// A number that becomes a term has no 32 bits.
    NumberOutOfInt32,
    /// A table stands where one term is wanted.
    ListForOneTerm,
    /// A quote of statements stands where an expression is wanted.
    StatementsForExpression,
    /// A symbol without a type stands as a parameter.
    SymbolWithoutType,
    /// A quote or a function has more than 8,192 nodes.
    TermTooLarge,
    /// A quote or a function has more than 1,000 levels.
    TermTooDeep,
    /// The types of a definition aren't those of its declaration.
    DiffersFromDeclaration,
    /// A function was defined while its body was specialised.
    AlreadyDefined,
    /// A value of this kind has no fields, or none that take stores.
    Index(Kind),
    /// The statics would take more than half of the memory.
    StaticsFull,
    /// An array type would have more bytes than a type may have.
    TypeTooLarge,
    /// An export isn't allowed.
    BadExport,
    /// A quote that isn't typed is asked for its type.
    QuoteWithoutType,
    /// The argument of this number isn't of the form that the function wants.
    BadArgument(u64, LibFn),
}

impl Fault {
    /// The text of the error that is raised, without a place before it. It names kinds, and never variables.
    pub fn text(&self, alloc: Global) -> Result<String, NoMemory>
        ensures { IfOk result (λ text. string_bytes text ≡ fault_text self.now) }
    {
        match self {
            Fault::NotAType => Ok(String::from_str(alloc, "not a Terra type")?),
            Fault::InTerraCode(kind) => {
                let name = kind.name();
                Ok(format!(in alloc; "{name} value in Terra code")?)
            }
            Fault::NumberOutOfInt32 => Ok(String::from_str(alloc, "number out of int32")?),
            Fault::ListForOneTerm => Ok(String::from_str(alloc, "list where one term is wanted")?),
            Fault::StatementsForExpression => Ok(String::from_str(
                alloc,
                "statements where an expression is wanted",
            )?),
            Fault::SymbolWithoutType => Ok(String::from_str(alloc, "symbol without type")?),
            Fault::TermTooLarge => Ok(String::from_str(alloc, "term too large")?),
            Fault::TermTooDeep => Ok(String::from_str(alloc, "term too deep")?),
            Fault::DiffersFromDeclaration => Ok(String::from_str(
                alloc,
                "definition differs from its declaration",
            )?),
            Fault::AlreadyDefined => Ok(String::from_str(alloc, "already defined")?),
            Fault::Index(kind) => {
                let name = kind.name();
                Ok(format!(in alloc; "attempt to index a {name} value")?)
            }
            Fault::StaticsFull => Ok(String::from_str(alloc, "statics full")?),
            Fault::TypeTooLarge => Ok(String::from_str(alloc, "type too large")?),
            Fault::BadExport => Ok(String::from_str(alloc, "bad export")?),
            Fault::QuoteWithoutType => Ok(String::from_str(alloc, "quote has no type")?),
            Fault::BadArgument(number, function) => bad_argument_text(alloc, *number, *function),
        }
    }
}

/// The text that says which argument isn't of its form.
fn bad_argument_text(alloc: Global, number: u64, function: LibFn) -> Result<String, NoMemory>
    ensures { IfOk result (λ text. string_bytes text ≡ fault_text (Fault.BadArgument number function)) }
{
    let name = function.name();
    Ok(format!(in alloc; "bad argument {number} to {name}")?)
}
