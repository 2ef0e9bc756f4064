// The lines that a call may owe.

ghost use Rattle.std.specs.Prelude.{◌≡◌, [], IfOk, string_bytes};
ghost use Rattle.terrac_call.specs.Due.{refused, due_of_syntax, due_of_no_entry, due_of_bad_argument, due_of_usage};
ghost use Rattle.terrac_call.specs.Statuses.{kind_name, image_fault_text, assembly_text};
ghost use Rattle.terrac_call.specs.Exec.{due_of_bad_image};
ghost use Rattle.terrac_call.specs.DueView.{line_bytes, shown_due};
ghost use Rattle.terrac_call.specs.declared.status.Status.TheVariants as statuses;

use crate::due::{Due, Line};
use crate::status::{ImageFault, Status};
use elf_image::ImageError;
use rv_listing::AsmKind;
use std::alloc::Global;
use tl_base::{Bytes, NoMemory, Place};
use tl_lex::SyntaxKind;

impl Line {
    pub(crate) fn as_bytes(&self) -> &[u8]
        ensures { result.now ≡ line_bytes self.now }
    {
        match self {
            Line::Fixed(text) => text.as_bytes(),
            Line::Made(text) => text.as_bytes(),
            Line::Bytes(text) => text.as_slice(),
        }
    }
}

/// The name of a kind of refusals.
fn kind_name(kind: SyntaxKind) -> &'static str
    ensures { result.now ≡ kind_name kind }
{
    match kind {
        SyntaxKind::BadByte => "BadByte",
        SyntaxKind::OpenText => "OpenText",
        SyntaxKind::BadEscape => "BadEscape",
        SyntaxKind::BadNumber => "BadNumber",
        SyntaxKind::NameTooLong => "NameTooLong",
        SyntaxKind::TextTooLong => "TextTooLong",
        SyntaxKind::TooDeep => "TooDeep",
        SyntaxKind::Ambiguous => "Ambiguous",
        SyntaxKind::Unexpected => "Unexpected",
        SyntaxKind::TooLong => "TooLong",
        SyntaxKind::NotUtf8 => "NotUtf8",
    }
}

/// The refusal of a source.
pub(crate) fn syntax_due(alloc: Global, kind: SyntaxKind, place: Place) -> Result<Due, NoMemory>
    ensures { IfOk result (λ due. shown_due due ≡ due_of_syntax kind place) }
{
    let name = kind_name(kind);
    let line = place.line;
    let word = place.word;
    Ok(Due {
        status: Status::Syntax { kind, place },
        line: Line::Made(format!(in alloc; "syntax {name} at {line}:{word}\n")?),
    })
}

/// The refusal of an entry that the source doesn't have.
pub(crate) fn no_entry_due(alloc: Global, entry: &str) -> Result<Due, NoMemory>
    ensures { IfOk result (λ due. shown_due due ≡ due_of_no_entry entry.now) }
{
    Ok(Due {
        status: Status::NoEntry,
        line: Line::Made(format!(in alloc; "no entry {entry}\n")?),
    })
}

/// The refusal of the word at a position.
pub(crate) fn bad_argument_due(alloc: Global, number: u64) -> Result<Due, NoMemory>
    ensures { IfOk result (λ due. shown_due due ≡ due_of_bad_argument number) }
{
    Ok(Due {
        status: Status::BadArgument { number },
        line: Line::Made(format!(in alloc; "bad argument {number}\n")?),
    })
}

/// The refusal of words that name no job, with this text.
pub(crate) fn usage_due(text: String) -> Due
    ensures { shown_due result ≡ record { status = statuses.Usage; out = []; noted = []; notes = string_bytes text } }
{
    Due {
        status: Status::Usage,
        line: Line::Made(text),
    }
}

/// The refusal of words that could not be read.
pub(crate) fn bare_usage_due() -> Due
    ensures { shown_due result ≡ due_of_usage [] }
{
    Due {
        status: Status::Usage,
        line: Line::Fixed("usage\n"),
    }
}

/// The end of a staging by an error with this text, whose place is this.
pub(crate) fn raised_due(alloc: Global, text: Bytes, place: Place) -> Result<Due, NoMemory>
    ensures { IfOk result (λ due. shown_due due ≡ refused (statuses.Raised text place)) }
{
    let row = place.line;
    let word = place.word;
    let behind = format!(in alloc; " at {row}:{word}\n")?;
    let mut line = Bytes::new(alloc);
    line.push_all(b"raised ")?;
    line.push_all(text.as_slice())?;
    line.push_all(behind.as_bytes())?;
    Ok(Due {
        status: Status::Raised { text, place },
        line: Line::Bytes(line),
    })
}

/// The end of a staging whose budget doesn't suffice.
pub(crate) fn spent_due() -> Due
    ensures { shown_due result ≡ refused statuses.BudgetSpent }
{
    Due {
        status: Status::BudgetSpent,
        line: Line::Fixed("budget spent\n"),
    }
}

/// What is due after a read that failed.
pub(crate) fn read_fault_due() -> Due
    ensures { shown_due result ≡ refused statuses.ReadFault }
{
    Due {
        status: Status::ReadFault,
        line: Line::Fixed("read fault\n"),
    }
}

/// What is due where memory was not found.
pub(crate) fn no_memory_due() -> Due
    ensures { shown_due result ≡ refused statuses.NoMemory }
{
    Due {
        status: Status::NoMemory,
        line: Line::Fixed("no memory\n"),
    }
}

/// The refusal of a run that isn't over after its steps.
pub(crate) fn unfinished_due() -> Due
    ensures { shown_due result ≡ refused statuses.Unfinished }
{
    Due {
        status: Status::Unfinished,
        line: Line::Fixed("unfinished\n"),
    }
}

/// The name of a test of the format, with the offset of a field.
fn image_fault_text(alloc: Global, fault: ImageFault) -> Result<String, NoMemory>
    ensures { IfOk result (λ text. string_bytes text ≡ image_fault_text fault) }
{
    let name = match fault {
        ImageFault::TooLong => "TooLong",
        ImageFault::Refused(ImageError::Short) => "Short",
        ImageFault::Refused(ImageError::BadMagic) => "BadMagic",
        ImageFault::Refused(ImageError::BadField(offset)) => {
            return Ok(format!(in alloc; "BadField {offset}")?);
        }
        ImageFault::Refused(ImageError::Overlap) => "Overlap",
        ImageFault::Refused(ImageError::BadSymbol) => "BadSymbol",
        ImageFault::Refused(ImageError::NoMemory) => "NoMemory",
    };
    Ok(String::from_str(alloc, name)?)
}

/// The refusal of bytes that are no image.
pub(crate) fn bad_image_due(alloc: Global, fault: ImageFault) -> Result<Due, NoMemory>
    ensures { IfOk result (λ due. shown_due due ≡ due_of_bad_image fault) }
{
    let text = image_fault_text(alloc, fault)?;
    Ok(Due {
        status: Status::BadImage { fault },
        line: Line::Made(format!(in alloc; "bad image {text}\n")?),
    })
}

/// The name of a fault of lines of instructions.
fn assembly_text(kind: AsmKind) -> &'static str
    ensures { result.now ≡ assembly_text kind }
{
    match kind {
        AsmKind::Empty => "Empty",
        AsmKind::BadName => "BadName",
        AsmKind::BadOperands => "BadOperands",
    }
}

/// The refusal of lines of instructions.
pub(crate) fn bad_assembly_due(alloc: Global, kind: AsmKind, line: u64) -> Result<Due, NoMemory>
    ensures { IfOk result (λ due. shown_due due ≡ refused (statuses.BadAssembly kind line)) }
{
    let name = assembly_text(kind);
    Ok(Due {
        status: Status::BadAssembly { kind, line },
        line: Line::Made(format!(in alloc; "bad assembly {name} at {line}\n")?),
    })
}
