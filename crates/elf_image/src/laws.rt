// What the definitions of the format say together.

ghost use Rattle.std.specs.Prelude.{◌≡◌, ◌↔◌, ℕ, List, length, IsTrue, Some, slice_get};
ghost use Rattle.elf_image.specs.declared.image.Image.{Image};
ghost use Rattle.elf_image.specs.declared.error.ImageError.TheVariants.{NoMemory};
ghost use Rattle.elf_image.specs.declared.layout.Part.{Part};
ghost use Rattle.elf_image.specs.Tests.{is_apart, IsIn};
ghost use Rattle.elf_image.specs.Lawful.{IsLawful};
ghost use Rattle.elf_image.specs.Loads.{Loads, BadBytes, HasOneAnswer};
ghost use Rattle.elf_image.specs.Written.{bytes_of, file_size};
ghost use Rattle.elf_image.specs.Exports.{names_differ};
ghost use Rattle.elf_image.specs.Calls.{symbol_named};
ghost use Rattle.elf_image.specs.declared.image.Symbol.{Symbol};

/// Each list of bytes is exactly one image or has exactly one fault.
pub fn one_answer()
    ensures { (bytes : List ℕ) → HasOneAnswer bytes }
{}

/// The file of a lawful image is this image.
pub fn written_loads()
    ensures { (image : Image) → IsLawful image → Loads (bytes_of image) image }
{}

/// The file of a lawful image has the bytes of its parts, and no others.
pub fn written_is_tight()
    ensures { (image : Image) → IsLawful image → length (bytes_of image) ≡ file_size image }
{}

/// Want of memory is no fault of a file.
pub fn memory_is_no_fault()
    ensures { (bytes : List ℕ) → BadBytes bytes NoMemory → ⊥ }
{}

/// Two parts are apart exactly where no byte is in both.
pub fn apart_shares_no_byte()
    ensures { (p q : Part) → IsTrue (is_apart p q) ↔ ((k : ℕ) → IsIn k p → IsIn k q → ⊥) }
{}

/// Where names differ, as those of an image do, each symbol is the one of its name.
pub fn a_name_is_one_symbols()
    ensures { (symbols : List Symbol) (k : ℕ) (s : Symbol) → IsTrue (names_differ symbols) → slice_get symbols k ≡ Some s →
        symbol_named s.name symbols ≡ Some s }
{}
