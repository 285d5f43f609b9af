//! WebAssembly modules, and what they mean: the parts of the Core Specification 1.0 that this compiler uses.
//!
//! Rust has the abstract syntax of a module; specs/ has its binary format, validity, reduction and run.
//! What holds of these are laws, each the contract of a function that does nothing, so that crates above can cite it.
#![tactic(auto)]

mod checked;
mod feature;
mod format;
mod host;
mod instr;
mod laws;
mod locals;
mod module;
mod name;
mod parts;
mod reading;
mod types;
mod value;

pub use checked::Checked;
pub use feature::Feature;
pub use format::{
    numbers_in_range, one_module, one_unsupported_feature, opcodes_are_the_tables,
    unsupported_features_are_met,
};
pub use host::{AnyHost, Host, HostAnswer};
pub use instr::{Binary, Comparison, Instr, MemArg, NarrowLoad, NarrowStore, Sign, Unary};
pub use laws::{
    blocks_are_entered, blocks_are_sequences, both_directions, empty_labels_are_left,
    ends_are_by_rule, entered_laws, first_faults, ifs_are_entered, ifs_are_sequences,
    loops_are_entered, loops_are_sequences, never_stuck, one_obstacle_is_first, one_rule_applies,
    puts_are_printed, reductions_in_turn, run_laws, runs_fit, runs_stand, steps_are_rewritings,
    stuck_runs_have_no_rule, traps_are_at_opcodes,
};
pub use locals::{Locals, RunOfLocals};
pub use module::{Element, Export, ExportDesc, Func, Global, Import, ImportDesc, Module, Segment};
pub use name::Name;
pub use parts::{
    instructions_are_read_in_one_way, parts_stop_in_one_place, sections_are_read_in_one_way,
    types_are_read_in_one_way,
};
pub use reading::sections_are_read_in_turn;
pub use types::{BlockType, FuncType, GlobalType, Limits, ValType};
pub use value::Value;
