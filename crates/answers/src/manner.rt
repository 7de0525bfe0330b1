// The number that names how a table is read, checked and laid. Bit 0 is the form of the hash, bit 1 the lookup; the other bits are not read.
// These are functions: no `From` can stand here between types that other crates declare.
ghost use Rattle.std.specs.Prelude.{◌≡◌};
ghost use Rattle.answers.specs.Manner.{form_of, lookup_of, manner_named};

use key_hash::hash::Form;
use read_find::manner::{Lookup, Manner};

// The form that a number names.
#[tactic(auto, unfolding(crate::specs::Manner::form_of, words::specs::Choice::pick))]
pub fn form_of(number: u32) -> Form
    ensures { result ≡ form_of number }
{
    if number % 2 == 0 {
        Form::Plain
    } else {
        Form::Signed
    }
}

// The lookup that a number names.
#[tactic(auto, unfolding(crate::specs::Manner::lookup_of, words::specs::Choice::pick))]
fn lookup_of(number: u32) -> Lookup
    ensures { result ≡ lookup_of number }
{
    if number / 2 % 2 == 0 {
        Lookup::Rust
    } else {
        Lookup::Strict
    }
}

// The manner that a number names.
#[tactic(auto, unfolding(crate::specs::Manner::manner_named))]
pub fn manner_of(number: u32) -> Manner
    ensures { result ≡ manner_named number }
{
    Manner {
        form: form_of(number),
        lookup: lookup_of(number),
    }
}
