// The words of a command line, which `clap` reads.

ghost use Rattle.std.specs.Prelude.{◌≡◌, ◌≢◌, [], IfOk, ◌==◌, false, map, unwrap_or, string_bytes};
ghost use Rattle.std.specs.List.{list_all};
ghost use Rattle.elf_image.specs.Fields.{allows};
ghost use Rattle.elf_image.specs.Lawful.{is_name};
ghost use Rattle.elf_image.specs.declared.rule.Rule.TheVariants.{Between};
ghost use Rattle.clap.specs.Words.{app_of, found_of, rows_of, rule_of, subcommand_rows_of, all_of, first_of};
ghost use Rattle.terrac_call.specs.Words.{entry_rule, arguments_rule, count_rule, steps_rule, budget_rule, memory_rule};
ghost use Rattle.clap.specs.declared.builder.command.Command.{out-Command};
ghost use Rattle.terrac_call.specs.Words.{image_rule, run_command, emit_command, exec_command, check_command};
ghost use Rattle.terrac_call.specs.Words.{terms_command, rename_command, gen_command, list_command, asm_command};
ghost use Rattle.terrac_call.specs.Words.{trace_command, traced_rule};
ghost use Rattle.terrac_call.specs.Words.{command_line, call_of, limits_of, running_of, run_of, gen_of, number_found, number_or_zero};
ghost use Rattle.terrac_call.specs.Words.{exec_of, trace_of};
ghost use Rattle.terrac_call.specs.Words.{text_or_none, generated_of, assembly_of, asked_job, asked_making, asked_of};
ghost use Rattle.terrac_call.specs.Words.{job_of_command, AreTaken, Refused};
ghost use Rattle.terrac_call.specs.JobView.{texts_of, shown_call, shown_limits, shown_running, shown_asking, shown_job, shown_asked};
ghost use Rattle.terrac_call.specs.JobView.{HasUsageLine, IsUsageText, shown_making, shown_task};

use clap::builder::ValueParser;
use clap::error::ErrorKind;
use clap::{Arg, ArgAction, ArgMatches, Command, Error};
use std::alloc::{AllocError, Global};
use tl_base::NoMemory;
use tl_base::limits::MAX_NAME_BYTES;

/// A call of an entry with arguments.
#[derive(Drop)]
pub(crate) struct Call<'a> {
    pub entry: &'a str,
    pub arguments: Vec<&'a str>,
}

/// The limits of a staging.
#[derive(Clone, Copy, Drop)]
pub(crate) struct Limits {
    /// How many units staging may pay.
    pub budget: u64,
    /// How many KiB of memory what is compiled has.
    pub memory: u64,
}

/// How a source is run.
#[derive(Clone, Copy, Drop)]
pub(crate) struct Running {
    pub limits: Limits,
    /// How many instructions are executed at most.
    pub steps: u64,
    /// Whether the image goes to `notes` before it runs.
    pub shows: bool,
}

/// How a function of an image is run.
#[derive(Clone, Copy, Drop)]
pub(crate) struct Stepping {
    /// How many instructions are executed at most.
    pub steps: u64,
    /// Whether a line tells of each, in place of what the program writes.
    pub traced: bool,
}

/// Which function of a source is called, and how the source is run.
#[derive(Drop)]
pub(crate) struct Asking<'a> {
    pub call: Call<'a>,
    pub running: Running,
    /// Of a generated source, how many functions were asked for.
    pub generated: Option<u64>,
}

/// What is made of bytes, with nothing written before it.
#[derive(Clone, Copy, Drop)]
pub(crate) enum Making<'a> {
    /// A source with its locals renamed.
    Rename,
    /// The listing of an image.
    ListImage,
    /// The image of lines of instructions, with a function of this name and so many KiB of memory.
    Assemble { entry: &'a str, memory: u64 },
}

/// What a source is staged for.
#[derive(Drop)]
pub(crate) enum Task<'a> {
    /// A line for the check of each function that it defines.
    Check(Limits),
    /// The terms of what it exports.
    Terms(Limits),
    /// The image of what it exports.
    Emit(Limits),
    /// A call of what it exports.
    Run(Asking<'a>),
}

impl Task<'_> {
    /// How many functions its source has, where that is generated.
    pub(crate) fn generated(&self) -> Option<u64>
        ensures { result ≡ generated_of (shown_task self.now) }
    {
        match self {
            Task::Run(asking) => asking.generated,
            _ => None,
        }
    }
}

/// What the words ask for.
#[derive(Drop)]
pub(crate) enum Job<'a> {
    /// To make something of bytes.
    Make(Making<'a>),
    /// To stage a source.
    Stage(Task<'a>),
    /// To run an entry of an image.
    Exec(Call<'a>, Stepping),
}

/// What words ask for.
#[derive(Drop)]
pub(crate) enum Asked<'a> {
    Job(Job<'a>),
    /// Nothing: the line `usage`, and `clap`'s own text.
    Refused(String),
    /// An image whose function can't have its name.
    Unlawful,
}

/// What the words ask for, the program's own name first.
pub(crate) fn asked_of<'a>(alloc: Global, words: &'a [String]) -> Result<Asked<'a>, NoMemory>
    ensures asked { IfOk result (λ asked. shown_asked asked ≡ asked_of (map string_bytes words.now)) }
    ensures taken { AreTaken (map string_bytes words.now) → IfOk result (λ asked. shown_asked asked ≢ Refused) }
    ensures text { IfOk result IsUsageText }
{
    let command = command_line(alloc)?;
    match command.try_get_matches_from(words) {
        Ok(matches) => {
            let job = job_of_matches(alloc, &matches)?;
            Ok(asked_job(job))
        }
        Err(error) => match error.kind() {
            ErrorKind::OutOfMemory => Err(NoMemory),
            _ => Ok(Asked::Refused(usage_text(alloc, &error)?)),
        },
    }
}

// What is asked for with a job that was found.
fn asked_job<'a>(job: Job<'a>) -> Asked<'a>
    ensures asked { shown_asked result ≡ asked_job (shown_job job.entry) }
    ensures named { shown_asked result ≢ Refused }
    ensures text { IsUsageText result }
{
    match &job {
        Job::Make(Making::Assemble { entry, memory: _ }) => {
            if !is_entry_name(entry) {
                return Asked::Unlawful;
            }
        }
        _ => {}
    }
    Asked::Job(job)
}

// Whether a function of an image can have this name.
fn is_entry_name(name: &str) -> bool
    ensures { result ≡ is_name name.now }
{
    let bytes = name.as_bytes();
    let length = bytes.len();
    1 <= length && length <= MAX_NAME_BYTES && are_name_bytes(bytes)
}

fn are_name_bytes(bytes: &[u8]) -> bool
    ensures { result ≡ list_all (allows (Between 1 255)) bytes.now }
{
    bytes.iter().all(|byte| is_name_byte(*byte))
}

// Any byte but zero.
fn is_name_byte(byte: u8) -> bool
    ensures { result ≡ allows (Between 1 255) byte }
{
    1 <= byte && byte <= u8::MAX
}

// The line `usage`, and the error's own text.
fn usage_text(alloc: Global, error: &Error) -> Result<String, NoMemory>
    ensures { IfOk result (λ text. HasUsageLine (string_bytes text)) }
{
    let own = format!(in alloc; "{error}")?;
    let mut text = String::from_str(alloc, "usage\n")?;
    text.push_str(&own)?;
    Ok(text)
}

// The job that was found.
fn job_of_matches<'a>(alloc: Global, matches: &ArgMatches<'a>) -> Result<Job<'a>, NoMemory>
    ensures { IfOk result (λ job. shown_job job ≡ job_of_command (subcommand_rows_of matches.now)) }
{
    match matches.subcommand() {
        Some((name, found)) => job_named(alloc, name, found),
        None => Ok(Job::Make(Making::Rename)),
    }
}

// The job of the command with this name, by what was found for it.
fn job_named<'a>(alloc: Global, name: &str, found: &ArgMatches<'a>) -> Result<Job<'a>, NoMemory>
    ensures { IfOk result (λ job. shown_job job ≡ job_of_command (Some (name.now, rows_of (found_of found.now)))) }
{
    if name == "run" {
        Ok(Job::Stage(Task::Run(run_of(alloc, found)?)))
    } else if name == "exec" {
        exec_of(alloc, found)
    } else if name == "check" {
        Ok(Job::Stage(Task::Check(limits_of(found))))
    } else if name == "terms" {
        Ok(Job::Stage(Task::Terms(limits_of(found))))
    } else if name == "emit" {
        Ok(Job::Stage(Task::Emit(limits_of(found))))
    } else if name == "gen" {
        Ok(Job::Stage(Task::Run(gen_of(alloc, found))))
    } else if name == "list" {
        Ok(Job::Make(Making::ListImage))
    } else if name == "asm" {
        Ok(Job::Make(assembly_of(found)))
    } else if name == "trace" {
        trace_of(alloc, found)
    } else {
        Ok(Job::Make(Making::Rename))
    }
}

// The call of a source that was found.
fn run_of<'a>(alloc: Global, found: &ArgMatches<'a>) -> Result<Asking<'a>, AllocError>
    ensures { IfOk result (λ asking. shown_asking asking ≡ run_of (rows_of (found_of found.now))) }
{
    let call = call_of(alloc, found)?;
    Ok(Asking {
        call,
        running: running_of(found),
        generated: None,
    })
}

// The call of a generated source that was found.
fn gen_of<'a>(alloc: Global, found: &ArgMatches<'a>) -> Asking<'a>
    ensures { shown_asking result ≡ gen_of (rows_of (found_of found.now)) }
{
    Asking {
        call: Call {
            entry: "main",
            arguments: Vec::new(alloc),
        },
        running: running_of(found),
        generated: Some(number_found(found, "N")),
    }
}

// The run of an image that was found.
fn exec_of<'a>(alloc: Global, found: &ArgMatches<'a>) -> Result<Job<'a>, NoMemory>
    ensures { IfOk result (λ job. shown_job job ≡ exec_of (rows_of (found_of found.now))) }
{
    let call = call_of(alloc, found)?;
    Ok(Job::Exec(
        call,
        Stepping {
            steps: number_found(found, "steps"),
            traced: false,
        },
    ))
}

// The run of an image that is traced, that was found.
fn trace_of<'a>(alloc: Global, found: &ArgMatches<'a>) -> Result<Job<'a>, NoMemory>
    ensures { IfOk result (λ job. shown_job job ≡ trace_of (rows_of (found_of found.now))) }
{
    let call = call_of(alloc, found)?;
    Ok(Job::Exec(
        call,
        Stepping {
            steps: number_found(found, "K"),
            traced: true,
        },
    ))
}

// The image that is assembled, by what was found.
fn assembly_of<'a>(found: &ArgMatches<'a>) -> Making<'a>
    ensures { shown_making result ≡ assembly_of (rows_of (found_of found.now)) }
{
    Making::Assemble {
        entry: text_of(found, "ENTRY"),
        memory: number_found(found, "memory"),
    }
}

// The call that was found for a command.
fn call_of<'a>(alloc: Global, found: &ArgMatches<'a>) -> Result<Call<'a>, AllocError>
    ensures { IfOk result (λ call. shown_call call ≡ call_of (rows_of (found_of found.now))) }
{
    let arguments = texts_of(alloc, found, "ARG")?;
    Ok(Call {
        entry: text_of(found, "ENTRY"),
        arguments,
    })
}

// The first value that was found for an argument.
fn text_of<'a>(found: &ArgMatches<'a>, id: &str) -> &'a str
    ensures { result.now ≡ text_or_none (first_of id.now (rows_of (found_of found.now))) }
{
    match found.get_str(id) {
        Some(text) => text,
        None => "",
    }
}

// All values that were found for an argument.
fn texts_of<'a>(alloc: Global, found: &ArgMatches<'a>, id: &str) -> Result<Vec<&'a str>, AllocError>
    ensures { IfOk result (λ texts. texts_of texts.items ≡ unwrap_or (all_of id.now (rows_of (found_of found.now))) []) }
{
    match found.get_raw(id) {
        Some(texts) => Vec::from_slice(alloc, texts),
        None => Ok(Vec::new(alloc)),
    }
}

// The limits that were found for a command.
fn limits_of(found: &ArgMatches<'_>) -> Limits
    ensures { shown_limits result ≡ limits_of (rows_of (found_of found.now)) }
{
    Limits {
        budget: number_found(found, "budget"),
        memory: number_found(found, "memory"),
    }
}

// How a source is run, by what was found for a command. One without the option `--image` shows none.
fn running_of(found: &ArgMatches<'_>) -> Running
    ensures { shown_running result ≡ running_of (rows_of (found_of found.now)) }
{
    Running {
        limits: limits_of(found),
        steps: number_found(found, "steps"),
        shows: number_found(found, "image") == 1,
    }
}

// The number that was found for an option, for N or for K.
fn number_found(found: &ArgMatches<'_>, id: &str) -> u64
    ensures { result ≡ number_found id.now (rows_of (found_of found.now)) }
{
    number_or_zero(text_of(found, id))
}

// The number that a text is; `clap` has tested that it is one.
fn number_or_zero(text: &str) -> u64
    ensures { result ≡ number_or_zero text.now }
{
    match text.parse::<u64>() {
        Ok(number) => number,
        Err(_) => 0,
    }
}

// The whole command line.
fn command_line<'a>(alloc: Global) -> Result<Command<'a>, AllocError>
    ensures { IfOk result (λ command. app_of command ≡ command_line) }
{
    let command = Command::new(alloc, "terrac")
        .about("A compiler of Terra for RISC-V RV64IM.")
        .subcommand_required(true)
        .subcommand(run_command(alloc)?)?
        .subcommand(emit_command(alloc)?)?
        .subcommand(exec_command(alloc)?)?
        .subcommand(check_command(alloc)?)?
        .subcommand(terms_command(alloc)?)?
        .subcommand(rename_command(alloc)?)?
        .subcommand(gen_command(alloc)?)?
        .subcommand(list_command(alloc)?)?
        .subcommand(asm_command(alloc)?)?
        .subcommand(trace_command(alloc)?)?;
    Ok(command)
}

// run ENTRY ARG.., with its options.
fn run_command<'a>(alloc: Global) -> Result<Command<'a>, AllocError>
    ensures shape { IfOk result (λ command. app_of command ≡ run_command) }
    ensures local { IfOk result (λ command. (out-Command command).has_globals ≡ false) }
{
    let command = Command::new(alloc, "run")
        .about(
            "Runs a function of a source, read on standard input; \
            writes what its staging and the function print, then `result` and its value.",
        )
        .after_help("Example: terrac run add 2 3 < add.t")
        .arg(budget_argument(alloc))?
        .arg(memory_argument(alloc))?
        .arg(steps_argument(alloc))?
        .arg(image_argument(alloc))?
        .arg(entry_argument(alloc))?
        .arg(call_arguments(alloc))?;
    Ok(command)
}

// emit, with its options.
fn emit_command<'a>(alloc: Global) -> Result<Command<'a>, AllocError>
    ensures shape { IfOk result (λ command. app_of command ≡ emit_command) }
    ensures local { IfOk result (λ command. (out-Command command).has_globals ≡ false) }
{
    let command = Command::new(alloc, "emit")
        .about(
            "Stages a source, read on standard input: \
            writes the image of the functions that it exports, and what it prints on standard error.",
        )
        .after_help("Example: terrac emit < add.t > add.elf")
        .arg(budget_argument(alloc))?
        .arg(memory_argument(alloc))?;
    Ok(command)
}

// exec ENTRY ARG.., with its option.
fn exec_command<'a>(alloc: Global) -> Result<Command<'a>, AllocError>
    ensures shape { IfOk result (λ command. app_of command ≡ exec_command) }
    ensures local { IfOk result (λ command. (out-Command command).has_globals ≡ false) }
{
    let command = Command::new(alloc, "exec")
        .about(
            "Runs a function of an image, read on standard input; writes its output, then `result` and its value.",
        )
        .after_help("Example: terrac exec five --steps 1000 < five.elf")
        .arg(steps_argument(alloc))?
        .arg(entry_argument(alloc))?
        .arg(call_arguments(alloc))?;
    Ok(command)
}

// check, with its options.
fn check_command<'a>(alloc: Global) -> Result<Command<'a>, AllocError>
    ensures shape { IfOk result (λ command. app_of command ≡ check_command) }
    ensures local { IfOk result (λ command. (out-Command command).has_globals ≡ false) }
{
    let command = Command::new(alloc, "check")
        .about(
            "Stages a source, read on standard input: writes what it prints, and a line for each function that it defines.",
        )
        .after_help("Example: terrac check --budget 1000 < counters.t")
        .arg(budget_argument(alloc))?
        .arg(memory_argument(alloc))?;
    Ok(command)
}

// terms, with its options.
fn terms_command<'a>(alloc: Global) -> Result<Command<'a>, AllocError>
    ensures shape { IfOk result (λ command. app_of command ≡ terms_command) }
    ensures local { IfOk result (λ command. (out-Command command).has_globals ≡ false) }
{
    let command = Command::new(alloc, "terms")
        .about(
            "Stages a source, read on standard input: writes what it prints, and the terms of the functions that it exports.",
        )
        .after_help("Example: terrac terms < dot.t")
        .arg(budget_argument(alloc))?
        .arg(memory_argument(alloc))?;
    Ok(command)
}

// rename, without options.
fn rename_command<'a>(alloc: Global) -> Result<Command<'a>, AllocError>
    ensures shape { IfOk result (λ command. app_of command ≡ rename_command) }
    ensures local { IfOk result (λ command. (out-Command command).has_globals ≡ false) }
{
    let command = Command::new(alloc, "rename")
        .about(
            "Writes a source, read on standard input, with its local variables, parameters and loop variables renamed.",
        )
        .after_help("Example: terrac rename < dot.t");
    Ok(command)
}

// gen N, with its options.
fn gen_command<'a>(alloc: Global) -> Result<Command<'a>, AllocError>
    ensures shape { IfOk result (λ command. app_of command ≡ gen_command) }
    ensures local { IfOk result (λ command. (out-Command command).has_globals ≡ false) }
{
    let command = Command::new(alloc, "gen")
        .about(
            "Generates a source of so many functions and runs its `main`; writes how many it defines, and the value.",
        )
        .after_help("Example: terrac gen 100")
        .arg(budget_argument(alloc))?
        .arg(memory_argument(alloc))?
        .arg(steps_argument(alloc))?
        .arg(count_argument(alloc))?;
    Ok(command)
}

// list, without options.
fn list_command<'a>(alloc: Global) -> Result<Command<'a>, AllocError>
    ensures shape { IfOk result (λ command. app_of command ≡ list_command) }
    ensures local { IfOk result (λ command. (out-Command command).has_globals ≡ false) }
{
    let command = Command::new(alloc, "list")
        .about(
            "Lists an image, read on standard input: writes its functions, and each instruction with its address.",
        )
        .after_help("Example: terrac list < five.elf");
    Ok(command)
}

// asm ENTRY, with its option.
fn asm_command<'a>(alloc: Global) -> Result<Command<'a>, AllocError>
    ensures shape { IfOk result (λ command. app_of command ≡ asm_command) }
    ensures local { IfOk result (λ command. (out-Command command).has_globals ≡ false) }
{
    let command = Command::new(alloc, "asm")
        .about(
            "Assembles lines of instructions, read on standard input: writes the image of a function of this name.",
        )
        .after_help("Example: terrac asm five < five.s > five.elf")
        .arg(memory_argument(alloc))?
        .arg(entry_argument(alloc))?;
    Ok(command)
}

// trace K ENTRY ARG.., without options.
fn trace_command<'a>(alloc: Global) -> Result<Command<'a>, AllocError>
    ensures shape { IfOk result (λ command. app_of command ≡ trace_command) }
    ensures local { IfOk result (λ command. (out-Command command).has_globals ≡ false) }
{
    let command = Command::new(alloc, "trace")
        .about(
            "Runs a function of an image, read on standard input; writes a line for each step, then `result` and a value.",
        )
        .after_help("Example: terrac trace 5 five < five.elf")
        .arg(traced_argument(alloc))?
        .arg(entry_argument(alloc))?
        .arg(call_arguments(alloc))?;
    Ok(command)
}

// --budget.
fn budget_argument<'a>(alloc: Global) -> Arg<'a>
    ensures rule { rule_of result ≡ budget_rule }
    ensures local { result.global ≡ false }
{
    Arg::new(alloc, "budget")
        .long("budget")
        .value_name("NUMBER")
        .help("How many units staging may pay, from 1 to 4000000")
        .value_parser(ValueParser::unsigned(1, 4_000_000))
        .default_value("1000000")
}

// --memory.
fn memory_argument<'a>(alloc: Global) -> Arg<'a>
    ensures rule { rule_of result ≡ memory_rule }
    ensures local { result.global ≡ false }
{
    Arg::new(alloc, "memory")
        .long("memory")
        .value_name("KIB")
        .help("How much memory compiled functions have, from 64 to 65536 KiB")
        .value_parser(ValueParser::unsigned(64, 65_536))
        .default_value("1024")
}

// --steps.
fn steps_argument<'a>(alloc: Global) -> Arg<'a>
    ensures rule { rule_of result ≡ steps_rule }
    ensures local { result.global ≡ false }
{
    Arg::new(alloc, "steps")
        .long("steps")
        .value_name("NUMBER")
        .help("How many instructions are executed at most, from 1 to 1000000000000")
        .value_parser(ValueParser::unsigned(1, 1_000_000_000_000))
        .default_value("100000000")
}

// --image.
fn image_argument<'a>(alloc: Global) -> Arg<'a>
    ensures rule { rule_of result ≡ image_rule }
    ensures local { result.global ≡ false }
{
    Arg::new(alloc, "image")
        .long("image")
        .value_name("NUMBER")
        .help("1 to write the image to standard error before it runs, 0 not to")
        .value_parser(ValueParser::unsigned(0, 1))
        .default_value("0")
}

// N.
fn count_argument<'a>(alloc: Global) -> Arg<'a>
    ensures rule { rule_of result ≡ count_rule }
    ensures local { result.global ≡ false }
{
    Arg::new(alloc, "N")
        .required(true)
        .help("How many functions, from 1 to 2000")
        .value_parser(ValueParser::unsigned(1, 2_000))
}

// K.
fn traced_argument<'a>(alloc: Global) -> Arg<'a>
    ensures rule { rule_of result ≡ traced_rule }
    ensures local { result.global ≡ false }
{
    Arg::new(alloc, "K")
        .required(true)
        .help("How many instructions are executed at most, from 1 to 1000000")
        .value_parser(ValueParser::unsigned(1, 1_000_000))
}

// ENTRY.
fn entry_argument<'a>(alloc: Global) -> Arg<'a>
    ensures rule { rule_of result ≡ entry_rule }
    ensures local { result.global ≡ false }
{
    Arg::new(alloc, "ENTRY").required(true).help(
        "The name of the function, as the source or the image has it",
    )
}

// ARG..
fn call_arguments<'a>(alloc: Global) -> Arg<'a>
    ensures rule { rule_of result ≡ arguments_rule }
    ensures local { result.global ≡ false }
{
    Arg::new(alloc, "ARG").action(ArgAction::Append).help(
        "Its arguments: true or false for bool, else decimal; those that begin with `-` after `--`",
    )
}
