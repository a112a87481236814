//! Of publishers and subscribers.
mod laws;
mod publish;
mod sentences;
mod subscribe;
