// Bytes in and out: records that CRLF ends, their fields, plain decimals, and text put after text in a fixed room.
#![tactic(auto)]

pub mod fields;
pub mod numbers;
pub mod output;
pub mod scanner;
