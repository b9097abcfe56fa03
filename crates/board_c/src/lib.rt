// The archive: the functions of the crate board under their C names, as include/chickadoor.h declares them. Each stands in both, since a crate is
// a library, which theorems cite, or an archive for C, and not both.
#![tactic(auto)]

mod lists;
mod on_operands;
mod on_tables;
mod on_words;
