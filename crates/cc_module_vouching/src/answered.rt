//! What stays known of the modules that were answered.

ghost use Rattle.std.specs.Prelude.{◌≡◌, ℕ, List, [], ◌∷◌, ◌++◌, Some, None, is_some, IfOk, IfErr, OnOk, if◌then◌else◌};
ghost use Rattle.std.specs.Str.{bytes_eq};
ghost use Rattle.cc_core.specs.TermViews.{type_of};
ghost use Rattle.cc_verdicts.specs.ModuleVerdicts.{FoundDefinition, code_of};
ghost use Rattle.cc_vouching.specs.VouchedModules.{Answered, found_in};
ghost use Rattle.cc_module_vouching.specs.AnswerViews.{answer_of};
ghost use Rattle.cc_module_vouching.specs.KeptFindings.{signature_in, signature_finding, kept_finding, module_in, finding_by, first_signature, KeepsAnswers};

use crate::answers::Answer;
use cc_base::code::Code;
use cc_base::name::Name;
use cc_core::Ty;
use cc_vouch::definitions::Vouched;
use std::alloc::{AllocError, Global};
use std::collections::BTreeMap;

// The same type. Its shape is shared.
fn copy_type(ty: &Ty) -> Result<Ty, AllocError>
    ensures { IfOk result (λ t. type_of t ≡ type_of ty.now) }
{
    ty.clone()
}

// The signatures of definitions, by their names.
#[derive(Drop)]
struct Signatures {
    types: BTreeMap<Name, Ty>,
}

impl Signatures {
    // No signature.
    fn new(alloc: Global) -> Signatures
        ensures { (name : List ℕ) → signature_in result name ≡ None }
    {
        Signatures {
            types: BTreeMap::new(alloc),
        }
    }

    // Gives the name the signature, instead of the one that it had.
    fn put(&mut self, name: &Name, sig: &Ty) -> Result<(), AllocError>
        ensures { OnOk result ((other : List ℕ) → signature_in self.new other ≡ (if bytes_eq name.now other then Some (type_of sig.now) else signature_in self.old other)) }
    {
        let copy = name.clone()?;
        let ty = copy_type(sig)?;
        self.types.insert(copy, ty)?;
        Ok(())
    }

    // The signature of the name, or the code for that there is none.
    fn signature(&self, name: &Name) -> Result<&Ty, Code>
        ensures ok { IfOk result (λ ty. signature_finding (signature_in self.now name.now) ≡ FoundDefinition (type_of ty.now)) }
        ensures err { IfErr result (λ code. code_of (signature_finding (signature_in self.now name.now)) ≡ Some code) }
    {
        match self.types.get(name) {
            Some(ty) => Ok(ty),
            None => Err(Code::E06),
        }
    }
}

// The signatures of the definitions. A name leads to the first definition of its own.
fn signatures_of(alloc: Global, definitions: &[Vouched]) -> Result<Signatures, AllocError>
    ensures { IfOk result (λ all. (name : List ℕ) → signature_in all name ≡ first_signature name definitions.now) }
{
    let mut signatures = Signatures::new(alloc);
    let mut left = definitions.len();
    while left > 0 {
        left -= 1;
        let one = &definitions[left];
        signatures.put(&one.name, &one.sig)?;
    }
    Ok(signatures)
}

// What stays known of a module.
#[derive(Drop)]
enum Kept {
    Vouched(Signatures),
    Refused,
}

impl Kept {
    // The signature of the definition of the name, or the code for that none is found.
    fn signature(&self, name: &Name) -> Result<&Ty, Code>
        ensures ok { IfOk result (λ ty. kept_finding self.now name.now ≡ FoundDefinition (type_of ty.now)) }
        ensures err { IfErr result (λ code. code_of (kept_finding self.now name.now) ≡ Some code) }
    {
        match self {
            Kept::Vouched(signatures) => signatures.signature(name),
            Kept::Refused => Err(Code::E07),
        }
    }
}

// What stays known of a module with the answer.
fn kept_of(alloc: Global, answer: &Answer) -> Result<Kept, AllocError>
    ensures { IfOk result (λ kept. (name : List ℕ) → kept_finding kept name ≡ found_in (Some (answer_of answer.now)) name) }
{
    match answer {
        Answer::Vouches(definitions) => {
            let signatures = signatures_of(alloc, definitions.as_slice())?;
            Ok(Kept::Vouched(signatures))
        }
        Answer::RefusesText(_) => Ok(Kept::Refused),
        Answer::RefusesDefinition(_, _) => Ok(Kept::Refused),
    }
}

/// The modules that were answered, by name, each with the signatures of its definitions where it is vouched for, and with
/// nothing else.
#[derive(Drop)]
pub struct AnsweredModules {
    modules: BTreeMap<Name, Kept>,
}

impl AnsweredModules {
    /// No module. It takes no memory.
    pub fn new(alloc: Global) -> AnsweredModules
        ensures { KeepsAnswers result [] }
    {
        AnsweredModules {
            modules: BTreeMap::new(alloc),
        }
    }

    // Whether there is a module of the name.
    fn has(&self, name: &Name) -> bool
        ensures { result ≡ is_some (module_in self.now name.now) }
    {
        self.modules.get(name).is_some()
    }

    // Puts in what stays known of a module, in the place of what was known of one of its name.
    fn put_kept(&mut self, name: &Name, kept: Kept) -> Result<(), AllocError>
        ensures { OnOk result ((other : List ℕ) → module_in self.new other ≡ (if bytes_eq name.now other then Some kept else module_in self.old other)) }
    {
        let copy = name.clone()?;
        self.modules.insert(copy, kept)?;
        Ok(())
    }

    /// Puts the module of the name, which has this answer, behind the others. Fails only for want of memory.
    pub fn put(&mut self, alloc: Global, name: &Name, answer: &Answer) -> Result<(), AllocError>
        ensures { OnOk result ((answered : Answered) → KeepsAnswers self.old answered → KeepsAnswers self.new (answered ++ (name.now, answer_of answer.now) ∷ [])) }
    {
        if self.has(name) {
            return Ok(());
        }
        let kept = kept_of(alloc, answer)?;
        self.put_kept(name, kept)?;
        Ok(())
    }

    /// The signature that is found for a definition of a module, or the code for that none is found: there is no such
    /// module, it is refused, or it has no such definition. It takes no memory.
    pub fn signature(&self, source: &Name, name: &Name) -> Result<&Ty, Code>
        ensures ok { IfOk result (λ ty. finding_by self.now source.now name.now ≡ FoundDefinition (type_of ty.now)) }
        ensures err { IfErr result (λ code. code_of (finding_by self.now source.now name.now) ≡ Some code) }
    {
        match self.modules.get(source) {
            Some(kept) => kept.signature(name),
            None => Err(Code::E05),
        }
    }
}
