//! A subscriber with ample memory, with refused memory and with counted memory, and the watch.

mod ample_memory;
mod counted_memory;
mod given;
mod refused_memory;
mod watching;
