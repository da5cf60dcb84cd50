//! Messages with devices that fail, and beside what the laws say.
mod devices;
mod laws;

// The worked log.
const LOG: [u8; 14] = [1, 0xab, 0, 4, 0, 1, 1, 7, 1, 2, 0, 0, 0, 5];
