//! The hash FNV-1a, fed with one number at a time.
ghost use Rattle.std.specs.Prelude.{◌<◌};

const PRIME: u64 = 1099511628211;

/// The hash of no numbers.
pub(crate) const START: u64 = 14695981039346656037;

/// The hash with one more number.
pub(crate) fn mixed(hash: u64, number: u64) -> u64 {
    (hash ^ number).wrapping_mul(PRIME)
}

/// The position of the hash among `capacity` slots.
pub(crate) fn offset_of(hash: u64, capacity: usize) -> usize
    requires { 0 < capacity }
    ensures { result < capacity }
{
    (hash % capacity as u64) as usize
}
