//! What `var_dump` prints (PHP manual, var_dump), to a sink. A call prints exactly what the definition in hph_php gives, in long
//! pieces. Arrays in one another are gone through with a list of those that are entered, not by calls, so however deep they are
//! no stack runs out.
#![tactic(auto)]

mod flush;
mod frame;
mod lines;
mod print;

pub use flush::HostStop;
pub use print::dump_all;
