// The archive for C, libgvdb.a: each function of the crate `gvdb` under its own name, with the same clauses. No crate can import it.
#![tactic(auto)]

mod building;
mod checking;
mod header;
mod reading;
mod writing;
