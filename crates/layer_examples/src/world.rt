// What the layers read and change.

/// The numbers that are asked about, how many totals were made, and how many numbers were given to sums.
#[derive(Drop)]
pub struct World {
    pub numbers: Vec<u64>,
    pub totals: u64,
    pub given: u64,
}
