//! Replies to commands that put and remove modules.

ghost use Rattle.std.specs.Prelude.{◌≡◌, [], IfOk};
ghost use Rattle.std.specs.String.{string_bytes};
ghost use Rattle.cc_replies.specs.ReplyTexts.{PutDone, PutRefused, DropDone, DropRefused, reply_text};

use cc_base::code::Code;
use cc_base::name::Name;
use std::alloc::{AllocError, Global};

/// The reply to a command that puts a module. Fails only for want of memory.
pub fn put_reply(alloc: Global, name: &Name) -> Result<String, AllocError>
    ensures { IfOk result (λ text. string_bytes text ≡ reply_text [] (PutDone name.now)) }
{
    format!(in alloc; "put {name}\n")
}

/// The reply to such a command that is refused with the code. Fails only for want of memory.
pub fn put_refusal(alloc: Global, name: &Name, code: Code) -> Result<String, AllocError>
    ensures { IfOk result (λ text. string_bytes text ≡ reply_text [] (PutRefused name.now code)) }
{
    format!(in alloc; "put {name} refused {code}\n")
}

/// The reply to a command that removes a module. Fails only for want of memory.
pub fn drop_reply(alloc: Global, name: &Name) -> Result<String, AllocError>
    ensures { IfOk result (λ text. string_bytes text ≡ reply_text [] (DropDone name.now)) }
{
    format!(in alloc; "drop {name}\n")
}

/// The reply to such a command that is refused with the code. Fails only for want of memory.
pub fn drop_refusal(alloc: Global, name: &Name, code: Code) -> Result<String, AllocError>
    ensures { IfOk result (λ text. string_bytes text ≡ reply_text [] (DropRefused name.now code)) }
{
    format!(in alloc; "drop {name} refused {code}\n")
}
