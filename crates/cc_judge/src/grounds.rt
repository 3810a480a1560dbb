//! What a module is judged by: its text, and what is found for its imports.

ghost use Rattle.std.specs.Prelude.{◌≡◌, IfOk};
ghost use Rattle.std.specs.Str.{bytes_eq};

use crate::reading::ReadText;
use cc_base::text::Text;
use cc_module::finding::Finding;
use std::alloc::{AllocError, Global};
use std::marker::Model;
use std::rc::Rc;

/// A text that is shared, not copied. Contracts see its bytes.
#[derive(Drop)]
pub struct SharedText {
    text: Rc<Text>,
}

impl Model for SharedText {
    ghost use Rattle.std.specs.Prelude.{List, ℕ};

    ghost Value = { List ℕ };

    ghost view = { λ t. t.text.value };
}

impl SharedText {
    /// The text of these bytes. Fails only for want of memory.
    pub fn new(alloc: Global, bytes: Vec<u8>) -> Result<SharedText, AllocError>
        ensures { IfOk result (λ text. text ≡ bytes.items) }
    {
        let text = Rc::new(alloc, Text::new(bytes))?;
        Ok(SharedText { text })
    }

    /// The same text, shared. Fails only for want of memory.
    pub fn share(&self) -> Result<SharedText, AllocError>
        ensures { IfOk result (λ text. text ≡ self.now) }
    {
        let text = self.text.clone()?;
        Ok(SharedText { text })
    }

    /// The bytes, in order.
    pub fn as_bytes(&self) -> &[u8]
        ensures { result.now ≡ self.now }
    {
        self.text.as_bytes()
    }

    /// Whether the two are one text.
    pub fn is(&self, other: &SharedText) -> bool
        ensures { result ≡ bytes_eq self.now other.now }
    {
        self.as_bytes() == other.as_bytes()
    }
}

/// What is found for the imports of a module, in order. Contracts see the list.
#[derive(Drop)]
pub struct Findings {
    findings: Vec<Finding>,
}

impl Model for Findings {
    ghost use Rattle.std.specs.Prelude.{List};
    ghost use Rattle.std.specs.Coded.{codes};
    ghost use Rattle.cc_module.specs.declared.finding.Finding.{Finding};
    ghost use Rattle.cc_module.specs.contracts.finding.Finding as finding;

    ghost Value = { List Finding };

    ghost coded = { Prim.hlevel (codes, finding.the_row.coded) };

    ghost view = { λ f. f.findings.items };
}

impl Findings {
    /// These findings.
    pub fn new(findings: Vec<Finding>) -> Findings
        ensures { result ≡ findings.items }
    {
        Findings { findings }
    }

    /// The findings, in order.
    pub fn as_slice(&self) -> &[Finding]
        ensures { result.now ≡ self.now }
    {
        self.findings.as_slice()
    }
}

/// What a module was judged by.
#[derive(Drop)]
pub struct Grounds {
    pub text: ReadText,
    pub findings: Findings,
}
