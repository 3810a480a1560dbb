// The text of what runs show.
use cc_base::literal::Op;
use cc_device::{Event, Shown, ShownLit};
use cc_machine::reading::lent;
use std::alloc::{AllocError, Global};

fn put_literal(alloc: Global, literal: ShownLit, text: &mut String) -> Result<(), AllocError> {
    match literal {
        ShownLit::Unit => text.push_str("unit"),
        ShownLit::Bool(truth) => text.push_str(&format!(in alloc; "{truth}")?),
        ShownLit::Int(number) => text.push_str(&format!(in alloc; "{number}")?),
        ShownLit::Str(letters) => text.push_str(letters),
    }
}

fn word(op: Op) -> &'static str {
    match op {
        Op::Print => "print",
        Op::Say => "say",
        Op::Read => "read",
        Op::Write => "write",
        Op::Tick => "tick",
    }
}

/// Puts an event at the end of the text.
pub(crate) fn put_event(alloc: Global, event: &Event, text: &mut String) -> Result<(), AllocError> {
    match event {
        Event::Device { device, op, lit } => {
            let word = word(*op);
            text.push_str(&format!(in alloc; "{device} {word} ")?)?;
            put_literal(alloc, lent(lit), text)?;
        }
        Event::Enter(label) => text.push_str(&format!(in alloc; "enter {label}")?)?,
        Event::Ended(label) => text.push_str(&format!(in alloc; "leave {label}")?)?,
        Event::Exited(label) => text.push_str(&format!(in alloc; "exit {label}")?)?,
    }
    text.push_str("; ")
}

/// Puts what is shown at the end of the text.
pub(crate) fn put_shown(alloc: Global, shown: Shown, text: &mut String) -> Result<(), AllocError> {
    match shown {
        Shown::Lit(literal) => put_literal(alloc, literal, text),
        Shown::Function => text.push_str("a function"),
        Shown::TypeFunction => text.push_str("a type function"),
        Shown::Box => text.push_str("a box"),
        Shown::Device(number) => text.push_str(&format!(in alloc; "device {number}")?),
        Shown::Label(label) => text.push_str(&format!(in alloc; "exit of {label}")?),
    }
}
