// A session some of whose calls find no memory. It says something where an allocation is refused: checks/ has the script.
ghost use Rattle.std.specs.Prelude.{◌≡◌, ◌<◌};

use crate::fixture::{devices, name};
use cc_base::name::Name;
use cc_base::steps::Steps;
use cc_session::refusals::PutRefused;
use cc_session::session::Session;
use std::alloc::{AllocError, Global};
use std::marker::Brand;
use std::sync::ledger::{Blank, Ledger};
use std::test::Fail;

/// The modules that are put, one after the other.
const PUTS: [(&str, &str); 3] = [
    ("b", "def line = fun (n: Int) => out.print(n)"),
    ("a", "import b.line def main = fun (u: Unit) => line(1)"),
    ("b", "def line = fun (n: Int) => log.write(n)"),
];

// The texts of both modules.
fn texts(alloc: Global, session: &Session, a: &Name, b: &Name) -> Result<Vec<u8>, AllocError> {
    let mut seen = Vec::new(alloc);
    for module in [a, b] {
        if let Ok(text) = session.text(module) {
            seen.extend_from_slice(text)?;
        }
        seen.push(b'\n')?;
    }
    Ok(seen)
}

// The same, asked for twice where memory lacks.
fn seen(alloc: Global, session: &Session, a: &Name, b: &Name) -> Result<Vec<u8>, AllocError> {
    match texts(alloc, session, a, b) {
        Ok(seen) => Ok(seen),
        Err(AllocError) => texts(alloc, session, a, b),
    }
}

// Puts the module in, and whether memory sufficed.
fn put(alloc: Global, session: &mut Session, module: &str, text: &str) -> Result<bool, AllocError> {
    let Some(name) = name(alloc, module)? else {
        return Ok(false);
    };
    let bytes = Vec::from_slice(alloc, text.as_bytes())?;
    match session.put(name, bytes) {
        Err(PutRefused::NoMemory) => Err(AllocError),
        _ => Ok(true),
    }
}

// Puts the module in, a second time where memory lacked, and whether the texts were then as before.
fn put_again(
    alloc: Global,
    session: &mut Session,
    at: (&str, &str),
    a: &Name,
    b: &Name,
) -> Result<bool, AllocError> {
    let before = seen(alloc, &*session, a, b)?;
    match put(alloc, &mut *session, at.0, at.1) {
        Ok(done) => Ok(done),
        Err(AllocError) => {
            let after = seen(alloc, &*session, a, b)?;
            Ok(before.as_slice() == after.as_slice() && put(alloc, session, at.0, at.1)?)
        }
    }
}

// Checks, a second time where memory lacked, and whether the texts were then as before.
fn check_again<L: Ledger>(
    alloc: Global,
    session: &mut Session,
    a: &Name,
    b: &Name,
    steps: &mut Steps<L>,
) -> Result<bool, AllocError> {
    let before = seen(alloc, &*session, a, b)?;
    match session.check(&mut *steps) {
        Ok(()) => Ok(true),
        Err(AllocError) => {
            let after = seen(alloc, &*session, a, b)?;
            session.check(steps)?;
            Ok(before.as_slice() == after.as_slice())
        }
    }
}

// Puts and checks, and whether each call that found no memory left the texts as they were.
fn all_again<L: Ledger>(
    alloc: Global,
    session: &mut Session,
    a: &Name,
    b: &Name,
    steps: &mut Steps<L>,
) -> Result<bool, AllocError> {
    let mut right = true;
    for at in PUTS {
        let put = put_again(alloc, &mut *session, at, a, b)?;
        let checked = check_again(alloc, &mut *session, a, b, &mut *steps)?;
        right = right && put && checked;
    }
    Ok(right)
}

// What is seen of the session in the end; nothing where a call changed it that should not have.
fn in_the_end<L: Ledger>(alloc: Global, blank: Blank) -> Result<Vec<u8>, AllocError>
    requires name { blank.name ≡ L.name }
    requires parts { blank.parts ≡ L.parts }
    requires some { 0 < L.parts }
{
    let nothing = Vec::new(alloc);
    let (Some(a), Some(b)) = (name(alloc, "a")?, name(alloc, "b")?) else {
        return Ok(nothing);
    };
    let Some(devices) = devices(alloc)? else {
        return Ok(nothing);
    };
    let mut steps = Steps::<L>::new(blank);
    let mut session = Session::new(alloc, devices);
    if all_again(alloc, &mut session, &a, &b, &mut steps)? {
        seen(alloc, &session, &a, &b)
    } else {
        Ok(nothing)
    }
}

#[test]
fn what_finds_no_memory_changes_nothing(rt: HostRuntime) -> Result<(), Fail> {
    let end = in_the_end::<Brand>(rt.alloc(), Blank::new(1))?;
    let wanted: &[u8] =
        b"import b.line def main = fun (u: Unit) => line(1)\ndef line = fun (n: Int) => log.write(n)\n";
    assert_eq!(rt; end.as_slice(), wanted);
    Ok(())
}
