//! Captures over memory, in any pieces, cut at each octet, and where reading fails.

mod headers;
mod other_links;
mod packets;
mod records;
mod sentences;
