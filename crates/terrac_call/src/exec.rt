// Calls of functions of an image: from its bytes to a machine that is ready to run.

ghost use Rattle.std.specs.Prelude.{◌≡◌, ◌≤◌, ◌≢◌, length, IfOk};
ghost use Rattle.elf_image.specs.Lawful.{IsLawful};
ghost use Rattle.elf_image.specs.Calls.{symbol_named};
ghost use Rattle.elf_image.specs.declared.error.ImageError.TheVariants as errors;
ghost use Rattle.terrac_call.specs.Arguments.{Good};
ghost use Rattle.terrac_call.specs.declared.status.ImageFault.TheVariants.{Refused};
ghost use Rattle.terrac_call.specs.Exec.{due_of_bad_image, file_shown, IsRunDue, IsCallDue, IsExecDue};
ghost use Rattle.terrac_call.specs.DueView.{due_of_rest, shown_due, words_traced};
ghost use Rattle.terrac_call.specs.Tracing.{words_in};
ghost use Rattle.terrac_call.specs.JobView.{shown_call, shown_manner, shown_stepping};

use crate::arguments::{Arguments, arguments_of};
use crate::due::{Due, LONGEST_END, Ready, Rest};
use crate::lines::{bad_argument_due, bad_image_due, no_entry_due};
use crate::status::ImageFault;
use crate::words::{Call, Stepping};
use elf_image::{Image, ImageError, LONGEST_IMAGE, Symbol, read, write};
use rv_machine::Machine;
use std::alloc::Global;
use tl_base::NoMemory;

/// How a call on an image is carried out.
#[derive(Clone, Copy, Drop)]
pub(crate) struct Manner<'a> {
    /// How many instructions are executed at most.
    pub steps: u64,
    /// What stands before the line of the result, on that line.
    pub front: &'a str,
    /// Whether the image goes to `notes` before it runs.
    pub shows: bool,
    /// Whether its steps are told, in place of what the program writes.
    pub traced: bool,
}

/// What is due for a call on the bytes of an image.
pub(crate) fn exec(
    alloc: Global,
    call: &Call<'_>,
    stepping: Stepping,
    bytes: &[u8],
) -> Result<Rest, NoMemory>
    ensures { IfOk result (λ rest.
        IsExecDue (shown_call call.now) (shown_stepping stepping) bytes.now (due_of_rest rest)) }
{
    if bytes.len() > LONGEST_IMAGE {
        let due = bad_image_due(alloc, ImageFault::TooLong)?;
        return Ok(Rest::Due(due));
    }
    let manner = Manner {
        steps: stepping.steps,
        front: "",
        shows: false,
        traced: stepping.traced,
    };
    match read(alloc, bytes) {
        Ok(image) => call_image(alloc, call, &manner, &image),
        Err(error) => {
            let due = refused_due(alloc, error)?;
            Ok(Rest::Due(due))
        }
    }
}

/// What is due for bytes that are no image, where it isn't want of memory that says so.
pub(crate) fn refused_due(alloc: Global, error: ImageError) -> Result<Due, NoMemory>
    ensures other { IfOk result (λ due. error ≢ errors.NoMemory) }
    ensures due { IfOk result (λ due. shown_due due ≡ due_of_bad_image (Refused error)) }
{
    match error {
        ImageError::NoMemory => Err(NoMemory),
        _ => bad_image_due(alloc, ImageFault::Refused(error)),
    }
}

/// What is due for a call on an image.
pub(crate) fn call_image(
    alloc: Global,
    call: &Call<'_>,
    manner: &Manner<'_>,
    image: &Image,
) -> Result<Rest, NoMemory>
    requires { IsLawful image.now }
    ensures { IfOk result (λ rest. IsCallDue image.now (shown_call call.now) (shown_manner manner.now)
        (symbol_named (shown_call call.now).entry image.now.exports) (due_of_rest rest)) }
{
    let Some(symbol) = image.find(call.entry.as_bytes()) else {
        let due = no_entry_due(alloc, call.entry)?;
        return Ok(Rest::Due(due));
    };
    match arguments_of(alloc, symbol.params.as_slice(), &call.arguments)? {
        Arguments::Good(values) => ready(alloc, image, symbol, &values, manner),
        Arguments::Bad(number) => {
            let due = bad_argument_due(alloc, number)?;
            Ok(Rest::Due(due))
        }
    }
}

/// A run of a function of an image, with all the memory that it takes: the machine's, that of the image's file where it is
/// shown, of the words of text where the run is traced, and room for the line of each end.
fn ready(
    alloc: Global,
    image: &Image,
    symbol: &Symbol,
    values: &[u64],
    manner: &Manner<'_>,
) -> Result<Rest, NoMemory>
    requires lawful { IsLawful image.now }
    requires few { length values.now ≤ 8 }
    ensures { IfOk result (λ rest. IsRunDue image.now symbol.now (shown_manner manner.now) (Good values.now) (due_of_rest rest)) }
{
    let mut machine = Machine::load(alloc, image)?;
    machine.start(symbol.address, values);
    let file = file_shown(alloc, manner.shows, image)?;
    let words = words_traced(alloc, manner.traced, image)?;
    let front = String::from_str(alloc, manner.front)?;
    let line = Vec::with_capacity(alloc, front.len() + LONGEST_END)?;
    Ok(Rest::Run(Ready {
        machine,
        steps: manner.steps,
        file,
        front,
        code: symbol.result,
        words,
        line,
    }))
}

/// The words of an image's text where its run is traced, and else none.
fn words_traced(alloc: Global, traced: bool, image: &Image) -> Result<Option<Vec<u32>>, NoMemory>
    ensures { IfOk result (λ words. words_in words ≡ words_traced traced image.now) }
{
    if !traced {
        return Ok(None);
    }
    let words = Vec::from_slice(alloc, image.text.as_slice())?;
    Ok(Some(words))
}

/// The file of an image where it is shown, and else nothing.
fn file_shown(alloc: Global, shows: bool, image: &Image) -> Result<Vec<u8>, NoMemory>
    requires { IsLawful image.now }
    ensures { IfOk result (λ file. file.items ≡ file_shown shows image.now) }
{
    if shows {
        Ok(write(alloc, image)?)
    } else {
        Ok(Vec::new(alloc))
    }
}
