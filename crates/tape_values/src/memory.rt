use std::alloc::AllocError;

/// What is said of a growth of memory that was refused.
pub const OUT_OF_MEMORY: &str = "out of memory";

/// A growth of memory was refused.
pub type Memory = AllocError;
