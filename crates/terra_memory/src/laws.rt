// What the definitions mean together. Each function does nothing, and its clause is a law.

ghost use Rattle.std.specs.Prelude.{◌≡◌, ℕ, ◌+◌, ◌*◌, ◌%◌, ◌^◌, ◌≤◌, ◌⊎◌, length, Some, IfSome};
ghost use Rattle.terra_memory.specs.Numbers.{number_of, low_bytes};
ghost use Rattle.terra_memory.specs.Region.{Contents, aligned, load_of, store_of};

/// The lowest bytes of a number make that number, cut to their size.
pub fn low_bytes_make_the_number()
    ensures { (size value : ℕ) → number_of (low_bytes size value) ≡ value % 2 ^ (8 * size) }
{}

/// `aligned` gives the first multiple of 16 at or after an address.
pub fn aligned_is_the_first_multiple()
    ensures multiple { (address : ℕ) → aligned address % 16 ≡ 0 }
    ensures after { (address : ℕ) → address ≤ aligned address }
    ensures first { (address other : ℕ) → other % 16 ≡ 0 → address ≤ other → aligned address ≤ other }
{}

/// A load after a store of the same size at the same place gives the number that was stored, cut to that size.
pub fn load_gives_what_was_stored()
    ensures { (r : Contents) (address size value : ℕ) → IfSome (store_of r address size value)
        (λ after. load_of after address size ≡ Some (value % 2 ^ (8 * size))) }
{}

/// A store changes no load of bytes before or behind it.
pub fn load_apart_is_unchanged()
    ensures { (r : Contents) (address size value other count : ℕ) → (other + count ≤ address) ⊎ (address + size ≤ other)
        → IfSome (store_of r address size value) (λ after. load_of after other count ≡ load_of r other count) }
{}

/// A store changes neither the region's size nor the heap.
pub fn store_keeps_size_and_heap()
    ensures { (r : Contents) (address size value : ℕ) → IfSome (store_of r address size value)
        (λ after. (length after.bytes ≡ length r.bytes) × (after.heap ≡ r.heap)) }
{}
