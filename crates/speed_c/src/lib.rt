// Work for a stopwatch with C linkage, as a static library.
#![tactic(auto)]

use speed::kind::Kind;
use speed::work::Work;

// Does `turns` turns of a kind of work on a set of so many keys: a row list, or a plain row where `plain` is not 0. The C interface tells both by numbers.
#[unsafe(no_mangle)]
pub extern "C" fn order_speed(plain: u32, work: u32, keys: u16, turns: u32) -> u32 {
    speed::order_speed(Kind::from(plain), Work::from(work), keys, turns)
}
