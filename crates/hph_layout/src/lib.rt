//! The module of a program: the functions that it imports, its table and its memory, laid out around the code of the lowering.
//! `module_of` of specs/Modules is the whole. No code yet.
#![tactic(auto)]
