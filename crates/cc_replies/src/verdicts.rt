//! The reply to a command that checks the modules.

ghost use Rattle.std.specs.Prelude.{◌≡◌, ◌++◌, [], IfOk, OnOk};
ghost use Rattle.std.specs.List.{list_any};
ghost use Rattle.std.specs.String.{string_bytes};
ghost use Rattle.cc_module.specs.Judgements.{module_verdict_of};
ghost use Rattle.cc_replies.specs.ReplyTexts as plain;
ghost use Rattle.cc_replies.specs.ReplyTexts.{Verdicts, reply_text, is_refusal};
ghost use Rattle.cc_judge.specs.Kept.{named_verdict, named_verdicts};

use cc_base::code::Diag;
use cc_base::name::Name;
use cc_module::judgement::ModuleVerdict;
use std::alloc::{AllocError, Global};

// That a module is refused.
fn refusal_text(alloc: Global, diag: Diag) -> Result<String, AllocError>
    ensures { IfOk result (λ text. string_bytes text ≡ plain.refusal_text diag.code diag.place) }
{
    let code = diag.code;
    let place = diag.place;
    format!(in alloc; "{code} {place}")
}

// Adds what is said of a verdict.
fn put_verdict_text(
    alloc: Global,
    out: &mut String,
    verdict: &ModuleVerdict,
) -> Result<(), AllocError>
    ensures { OnOk result (string_bytes out.new ≡ string_bytes out.old ++ plain.verdict_text (module_verdict_of verdict.now)) }
{
    match verdict.defs() {
        Ok(_) => out.push_str("ok"),
        Err(diag) => {
            let text = refusal_text(alloc, diag)?;
            out.push_str(text.as_str())
        }
    }
}

// Adds the line of a module.
fn put_verdict(
    alloc: Global,
    out: &mut String,
    one: &(Name, ModuleVerdict),
) -> Result<(), AllocError>
    ensures { OnOk result (string_bytes out.new ≡ string_bytes out.old ++ plain.verdict_line (named_verdict one.now)) }
{
    out.push_str("  ")?;
    out.push_str(one.0.as_str())?;
    out.push_str(" ")?;
    put_verdict_text(alloc, &mut *out, &one.1)?;
    out.push_str("\n")
}

/// The reply to a command that checks the modules, which have these verdicts: a line for each, in their order. Fails
/// only for want of memory.
pub fn check_reply(alloc: Global, verdicts: &[(Name, ModuleVerdict)]) -> Result<String, AllocError>
    ensures { IfOk result (λ text. string_bytes text ≡ reply_text [] (Verdicts (named_verdicts verdicts.now))) }
{
    let mut out = String::from_str(alloc, "check\n")?;
    for one in verdicts {
        put_verdict(alloc, &mut out, one)?;
    }
    Ok(out)
}

// Whether the module is refused.
fn is_refused(verdict: &ModuleVerdict) -> bool
    ensures { result ≡ plain.is_refused (module_verdict_of verdict.now) }
{
    match verdict.defs() {
        Ok(_) => false,
        Err(_) => true,
    }
}

// Whether one of the modules is refused.
fn any_refused(verdicts: &[(Name, ModuleVerdict)]) -> bool
    ensures { result ≡ list_any (λ one. plain.is_refused (module_verdict_of one.1)) verdicts.now }
{
    verdicts.iter().any(|one| is_refused(&one.1))
}

/// Whether that reply tells of a refusal: one of the modules is refused. It takes no memory.
pub fn has_refused(verdicts: &[(Name, ModuleVerdict)]) -> bool
    ensures { result ≡ is_refusal (Verdicts (named_verdicts verdicts.now)) }
{
    any_refused(verdicts)
}
