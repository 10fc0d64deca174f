// Lists of tests, slices and stacks: definitions and laws that several crates share, and a stack in an array.
#![tactic(auto)]

pub mod array_stack;
