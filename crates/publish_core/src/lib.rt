//! A publisher of one control block of GOOSE (IEC 61850-8-1): which frame each change of the data set and each poll
//! gives, and when a change is refused.
//!
//! ```text
//! steps (10 ms, lives 2000 ms), (1000 ms, lives 3000 ms)
//!
//! calls   change  poll  poll        poll    change     poll before the wait is over
//! ms      0       9     10          1010    1500       1509
//! gives   1,0     -     1,1         1,2     2,0        -
//! lives   2000          3000        3000    2000       (stNum, sqNum and timeAllowedtoLive of the frames)
//! ```
#![tactic(auto)]

mod control;
mod fault;
mod fitting;
mod frames;
pub mod laws;
mod publisher;
mod renewing;
mod table;

pub use crate::control::Control;
pub use crate::fault::PublishFault;
pub use crate::publisher::Publisher;
pub use crate::table::{MOST_STEPS, Step, Table};
