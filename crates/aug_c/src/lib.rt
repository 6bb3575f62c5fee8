//! The shared trie for programs in C and in other languages: a static library of exports over handles. No call waits for anybody.
#![tactic(auto)]

mod array_listing;
mod array_queries;
mod array_updates;
mod changes;
mod codes;
mod pops;
mod queries;
mod raw_box;
mod raw_handle;
mod refusal;
mod state;
mod trie_calls;
mod updates;
