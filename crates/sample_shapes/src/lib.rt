//! Shapes put together by types, by which the tests of reading_vectors and the program bench/ttlv_times read: `parts` stand for shapes,
//! `names` for the names in them, and `Run` keeps of what was read its length. `inputs` makes messages of any size, and `shapes`
//! says what they are read by. `rereads` tests whether messages come back.
#![tactic(auto)]

pub mod inputs;
pub mod names;
pub mod parts;
pub mod rereads;
pub mod run;
pub mod shapes;
