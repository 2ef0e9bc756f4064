// Rows of runs: an image with a text, its arguments, and how its run stops.

ghost use Rattle.std.specs.Prelude.{◌<◌};

use crate::words::numbers_from;
use elf_image::{Entries, Entry, Image, Symbol, Symbols, Words, is_lawful};
use row_words::{hexadecimal, word_at, words_of};
use rv_machine::{Machine, Stop, run_image};
use std::alloc::Global;
use tl_base::limits::TEXT_ADDRESS;
use tl_base::{Bytes, Failed, MemSink, NoMemory, Sink};

/// The static bytes of each image.
const STATICS: [u8; 16] = [
    0xf0, 0xe1, 0xd2, 0xc3, 0xb4, 0xa5, 0x96, 0x87, 0x78, 0x69, 0x5a, 0x4b, 0x3c, 0x2d, 0x1e, 0x0f,
];

/// A sink that takes at most so many bytes at a time.
#[derive(Drop)]
pub struct Narrow {
    inner: MemSink,
    width: usize,
    ghost positive: { 0 < width },
}

impl Sink for Narrow {
    ghost use Rattle.std.specs.Prelude.{Some};

    ghost taken = { λ s. Some s.inner.taken };

    ghost faults = { λ s. s.inner.faults };

    fn write(&mut self, piece: &[u8]) -> Result<usize, Failed> {
        self.inner.write(&piece[..piece.len().min(self.width)])
    }
}

/// What stands on the bench: the sink of the runs, and the machine that runs in parts.
#[derive(Drop)]
pub struct Bench {
    pub alloc: Global,
    out: Narrow,
    entries: u64,
    machine: Option<Machine>,
}

impl Bench {
    /// A bench whose sink takes nothing, and whose images have no entries.
    pub fn new(alloc: Global) -> Result<Bench, NoMemory> {
        Ok(Bench {
            alloc,
            out: narrow_sink(alloc, 0, 1, Vec::new(alloc))?,
            entries: 0,
            machine: None,
        })
    }

    /// `sink ROOM WIDTH CALL..`: a sink with this room, that takes so many bytes at a time and fails in these calls.
    pub fn sink(&mut self, words: &[&str]) -> Result<String, NoMemory> {
        let room = count_of(word_at(words, 1));
        let width = count_of(word_at(words, 2));
        let failing = numbers_from(self.alloc, words, 3)?;
        self.out = narrow_sink(self.alloc, room, width, failing)?;
        Ok(String::from_str(self.alloc, "empty")?)
    }

    /// `taken`: how many bytes the sink took, and the first sixteen.
    pub fn taken(&self) -> Result<String, NoMemory> {
        let bytes = self.out.inner.bytes();
        let count = bytes.len();
        let mut text = format!(in self.alloc; "{count:x} ")?;
        for byte in &bytes[..count.min(16)] {
            let digits = format!(in self.alloc; "{byte:02x}")?;
            text.push_str(&digits)?;
        }
        Ok(text)
    }

    /// `entries COUNT`: how many entries each image has from here on. All have the address of the first word, and each its number among
    /// them as its signature.
    pub fn enter(&mut self, words: &[&str]) -> Result<String, NoMemory> {
        let count = hexadecimal(word_at(words, 1)) & 0xf_ffff;
        self.entries = count;
        Ok(format!(in self.alloc; "{count:x}")?)
    }

    /// `run STEPS TEXT ARGUMENT..`: how the run of an image with this text stops that begins at its first word.
    pub fn run(&mut self, words: &[&str]) -> Result<String, NoMemory> {
        let alloc = self.alloc;
        let image = image_of(alloc, word_at(words, 2), self.entries)?;
        let arguments = numbers_from(alloc, words, 3)?;
        if !is_lawful(&image) || arguments.len() > 8 {
            return Ok(String::from_str(alloc, "no such image")?);
        }
        let steps = hexadecimal(word_at(words, 1));
        let stop = run_image(
            alloc,
            &image,
            TEXT_ADDRESS,
            &arguments,
            steps,
            &mut self.out,
        )?;
        shown(alloc, stop)
    }

    /// `load TEXT`: the machine of an image with this text.
    pub fn load(&mut self, words: &[&str]) -> Result<String, NoMemory> {
        let image = image_of(self.alloc, word_at(words, 1), self.entries)?;
        if !is_lawful(&image) {
            return Ok(String::from_str(self.alloc, "no such image")?);
        }
        self.machine = Some(Machine::load(self.alloc, &image)?);
        Ok(String::from_str(self.alloc, "loaded")?)
    }

    /// `start ARGUMENT..`: the machine at its first word.
    pub fn start(&mut self, words: &[&str]) -> Result<String, NoMemory> {
        let arguments = numbers_from(self.alloc, words, 1)?;
        match &mut self.machine {
            Some(machine) if arguments.len() <= 8 => {
                machine.start(TEXT_ADDRESS, &arguments);
                Ok(String::from_str(self.alloc, "started")?)
            }
            _ => Ok(String::from_str(self.alloc, "no machine")?),
        }
    }

    /// `steps STEPS`: how the machine stops after so many more.
    pub fn steps(&mut self, words: &[&str]) -> Result<String, NoMemory> {
        match &mut self.machine {
            Some(machine) => {
                let stop = machine.run(hexadecimal(word_at(words, 1)), &mut self.out);
                shown(self.alloc, stop)
            }
            None => Ok(String::from_str(self.alloc, "no machine")?),
        }
    }

    /// `count`: how many steps the machine took since it started.
    pub fn count(&self) -> Result<String, NoMemory> {
        match &self.machine {
            Some(machine) => {
                let count = machine.steps();
                Ok(format!(in self.alloc; "{count:x}")?)
            }
            None => Ok(String::from_str(self.alloc, "no machine")?),
        }
    }

    /// `pc`: the address of the machine's next instruction.
    pub fn pc(&self) -> Result<String, NoMemory> {
        match &self.machine {
            Some(machine) => {
                let address = machine.pc();
                Ok(format!(in self.alloc; "{address:x}")?)
            }
            None => Ok(String::from_str(self.alloc, "no machine")?),
        }
    }

    /// `register NUMBER`: what a register of the machine holds.
    pub fn register(&self, words: &[&str]) -> Result<String, NoMemory> {
        match &self.machine {
            Some(machine) => {
                let value = machine.register((hexadecimal(word_at(words, 1)) % 32) as u32);
                Ok(format!(in self.alloc; "{value:x}")?)
            }
            None => Ok(String::from_str(self.alloc, "no machine")?),
        }
    }
}

fn narrow_sink(
    alloc: Global,
    room: usize,
    width: usize,
    failing: Vec<u64>,
) -> Result<Narrow, NoMemory> {
    let inner = MemSink::new(alloc, room, failing)?;
    let width = width.max(1);
    Ok(Narrow { inner, width })
}

/// A number of at most 16 bits, for a count.
fn count_of(word: &str) -> usize {
    (hexadecimal(word) & 0xffff) as usize
}

/// An image with this text, the static bytes, so many entries, and one export at the first word.
fn image_of(alloc: Global, text: &str, count: u64) -> Result<Image, NoMemory> {
    let mut entries = Entries::new(alloc);
    for i in 0..count {
        entries.push(Entry {
            address: TEXT_ADDRESS,
            signature: i + 1,
        })?;
    }
    let mut exports = Symbols::new(alloc);
    exports.push(Symbol {
        name: Bytes::from_vec(b"f".to_vec(alloc)?),
        address: TEXT_ADDRESS,
        params: Bytes::new(alloc),
        result: 3,
    })?;
    Ok(Image {
        text: Words::from_vec(words_of(alloc, text)?),
        statics: Bytes::from_vec(STATICS.to_vec(alloc)?),
        entries,
        memory: 65_536,
        heap: 0x4000_0010,
        private: 512,
        exports,
    })
}

fn shown(alloc: Global, stop: Stop) -> Result<String, NoMemory> {
    match stop {
        Stop::Returned(value) => Ok(format!(in alloc; "{value:x}")?),
        Stop::TerraFault { kind, place } => Ok(format!(in alloc; "fault {kind:x} at {place:x}")?),
        Stop::MachineFault { kind, pc } => Ok(format!(in alloc; "{kind:?} at {pc:x}")?),
        Stop::Unfinished => Ok(String::from_str(alloc, "unfinished")?),
        Stop::WriteFault => Ok(String::from_str(alloc, "write fault")?),
    }
}
