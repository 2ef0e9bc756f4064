// Why bytes are no image.

ghost use Rattle.std.specs.Prelude.{◌≡◌};
ghost use Rattle.elf_image.specs.declared.error.ImageError.TheVariants.{NoMemory as no_memory};

use std::alloc::{AllocError, AllocFailed};
use thiserror::Error;

/// Why bytes are no image: the first test of the format that fails, or want of memory.
#[derive(Clone, Copy, Debug, PartialEq, Eq, Error)]
pub enum ImageError {
    /// The file ends before a part of it does.
    #[error("the file is too short")]
    Short,
    /// The first four bytes are not those of an ELF file.
    #[error("not an ELF file")]
    BadMagic,
    /// The field at this offset of the file holds what it may not.
    #[error("bad field at {0}")]
    BadField(u64),
    /// Two parts of the file share a byte.
    #[error("two parts of the file overlap")]
    Overlap,
    /// A symbol or a name of an export is not as the format has it.
    #[error("bad symbol")]
    BadSymbol,
    /// Memory was not found, which may happen at any file.
    #[error("no memory")]
    NoMemory,
}

impl From<AllocError> for ImageError {
    ghost from_gives = { λ _ e. e ≡ no_memory };

    fn from(_e: AllocError) -> ImageError {
        ImageError::NoMemory
    }
}

impl<T: Drop> From<AllocFailed<T>> for ImageError {
    ghost from_gives = { λ _ e. e ≡ no_memory };

    fn from(_e: AllocFailed<T>) -> ImageError {
        ImageError::NoMemory
    }
}
