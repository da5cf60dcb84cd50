//! The calls of each type that read and write nothing.
mod byte_vectors;
mod fixed_byte_vectors;
mod names;
mod secret_byte_vectors;
mod secret_vectors;
mod vectors;
