// Where a name is a local of a body.
ghost use Rattle.std.specs.Prelude.{◌≡◌, ◌+◌, ◌<◌, ◌^◌, length, map};
ghost use Rattle.self_terms.specs.Bodies.{entries, argument_entry, local_entry, is_named, is_setter, sought, number_of};

use crate::bodies::{Body, Local};

// The number of the first local that has the name, or that the name assigns; arguments come first, which no name assigns.
pub(crate) fn number_in(body: &Body, assigning: bool, name: u32) -> Option<usize>
    ensures { result ≡ number_of (sought assigning name) 0 (entries body.now) }
{
    let arguments = body.arguments.as_slice();
    if assigning {
        return local_number(body.locals.as_slice(), arguments.len(), assigning, name);
    }
    match argument_number(arguments, name) {
        Some(at) => Some(at),
        None => local_number(body.locals.as_slice(), arguments.len(), assigning, name),
    }
}

fn argument_number(arguments: &[u32], name: u32) -> Option<usize>
    ensures { result ≡ number_of (is_named name) 0 (map argument_entry arguments.now) }
{
    for (at, argument) in arguments.iter().enumerate() {
        if *argument == name {
            return Some(at);
        }
    }
    None
}

// The same among locals, of which the first has this number.
fn local_number(locals: &[Local], from: usize, assigning: bool, name: u32) -> Option<usize>
    requires { from + length locals.now < 2 ^ 64 }
    ensures { result ≡ number_of (sought assigning name) from (map local_entry locals.now) }
{
    for (at, local) in locals.iter().enumerate() {
        if is_sought(local, assigning, name) {
            return Some(from + at);
        }
    }
    None
}

fn is_sought(local: &Local, assigning: bool, name: u32) -> bool
    ensures { result ≡ sought assigning name (local_entry local.now) }
{
    if assigning {
        return is_setter(local.setter, name);
    }
    local.name == name
}

fn is_setter(setter: Option<u32>, name: u32) -> bool
    ensures { result ≡ is_setter name setter }
{
    match setter {
        None => false,
        Some(setter) => setter == name,
    }
}
