//! The commands to the failure injector.
use std::alloc::Global;

// Sizes from here on are commands to the injector.
const WORDS: usize = 1 << 62;

const EVERY: usize = WORDS + (1 << 33);

const NO_MORE: usize = WORDS + (1 << 34);

const THERE: usize = WORDS + (1 << 35);

const COUNT: usize = WORDS + (1 << 36);

const AS_COUNTED: usize = WORDS + (1 << 37);

// Returns whether a block of this size can be allocated.
fn can_allocate(alloc: Global, size: usize) -> bool {
    match Vec::<u8>::with_capacity(alloc, size) {
        Ok(block) => {
            drop(block);
            true
        }
        Err(_) => false,
    }
}

/// Returns whether there is an injector.
pub fn has_injector(alloc: Global) -> bool {
    can_allocate(alloc, THERE)
}

/// Makes the allocation with this number fail, counted from 1 from now on. 0 makes all allocations fail.
pub fn refuse(alloc: Global, number: usize) {
    let word = match number {
        0 => EVERY,
        _ => WORDS.saturating_add(number),
    };
    let _ = can_allocate(alloc, word);
}

/// Stops the injected failures. Returns whether an allocation was forced to fail.
pub fn stop_failing(alloc: Global) -> bool {
    can_allocate(alloc, NO_MORE)
}

/// Records the number of allocated blocks.
pub fn count(alloc: Global) {
    let _ = can_allocate(alloc, COUNT);
}

/// Returns whether the number of allocated blocks is the recorded one.
pub fn is_as_counted(alloc: Global) -> bool {
    can_allocate(alloc, AS_COUNTED)
}
