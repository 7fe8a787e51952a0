//! Each call that was asked for, with its types as they were asked for, but for what the table of DECISIONS 139 says is
//! otherwise. It is there to be compiled: a call, a type or a variant that changes its form is refused here, and
//! nothing calls any of it.
//!
//! A call is made a pointer of the type that was asked for, which proves nothing anew; one that is generic, or may
//! wait, is called, and what it returns is handed on, so that nothing is let go. An enum is taken apart by all its
//! variants, a record by all its fields. `serve` is missing: `serve_words`, beside it in `serving`, calls it.

mod faults;
mod machine;
mod networks;
mod programs;
mod texts;
mod waiting;
