ghost use Rattle.std.specs.Prelude.{◌≡◌, ◌+◌, [], ◌∷◌, drop, length, slice_get, IfOk, option_map};
ghost use Rattle.cc_core.specs.ClosedEntries.{is_open, closed_entries};
ghost use Rattle.cc_core.specs.Contexts.{lookup};
ghost use Rattle.cc_core.specs.Entries.{entries, AreLinked};
ghost use Rattle.cc_core.specs.TermViews.{bind_of, context_of};

use crate::occurrences::holds_hole;
use crate::types::{Shape, Ty};
use cc_capture::CapSet;
use std::alloc::{AllocError, Global};
use std::marker::Model;
use std::rc::Rc;

/// An entry of a context.
#[derive(Drop)]
pub enum Bind {
    /// A variable of terms, with its type.
    Var(Ty),
    /// A type variable, with its bound.
    TVar(Rc<Shape>),
    /// A variable of terms whose shape is shared with a type that stands under so many entries: it is that shape as
    /// `read_shape` reads it among them. The set is already as it stands in the context.
    Unread {
        shape: Rc<Shape>,
        set: CapSet,
        entries: u32,
    },
}

// An entry with those before it, and with a link that passes over so many entries, this one among them.
#[cycle(links)]
#[derive(Drop)]
struct Entry {
    bind: Bind,
    passed: u32,
    rest: Link,
    far: Link,
}

#[cycle(links)]
#[derive(Drop)]
enum Link {
    End,
    More(Rc<Entry>),
}

/// A context. Contracts see the list of its entries, the newest first. A position is the number of entries before it,
/// so it stays the same when entries are added.
///
/// The far link of an entry passes over that entry alone. But where the far link of the entry behind it passes over as
/// many as the one of the entry that it leads to, it passes over all of these and itself. So adding an entry takes a fixed
/// time, and finding one a time that grows with the number of digits of the length.
#[derive(Drop)]
pub struct Ctx {
    head: Link,
    len: u32,
    // How many entries are older than all whose declared sets have holes.
    closed: u32,
}

impl Model for Ctx {
    ghost use Rattle.std.specs.Prelude.{List, ◌≡◌, length};
    ghost use Rattle.std.specs.Coded.{codes};
    ghost use Rattle.cc_core.specs.declared.context.Bind.{Bind};
    ghost use Rattle.cc_core.specs.contracts.context.Bind as bind;
    ghost use Rattle.cc_core.specs.ClosedEntries.{closed_entries};
    ghost use Rattle.cc_core.specs.Entries.{entries, AreLinked};
    ghost use Rattle.cc_core.specs.TermViews.{context_of};

    ghost Value = { List Bind };

    ghost coded = { Prim.hlevel (codes, bind.the_row.coded) };

    ghost view = { λ c. entries c.head };

    ghost invariant = { λ c. (c.len ≡ length (entries c.head)) × AreLinked c.head × (c.closed ≡ closed_entries (context_of (entries c.head))) };
}

// The same entries, shared.
fn share(link: &Link) -> Result<Link, AllocError>
    ensures same { IfOk result (λ shared. entries shared ≡ entries link.now) }
    ensures linked { IfOk result (λ shared. AreLinked link.now → AreLinked shared) }
{
    match link {
        Link::End => Ok(Link::End),
        Link::More(entry) => Ok(Link::More(entry.clone()?)),
    }
}

// The entries with one more, and with its far link.
#[inline(always)]
fn linked(
    alloc: Global,
    bind: Bind,
    passed: u32,
    rest: &Link,
    far: &Link,
) -> Result<Link, AllocError>
    requires far { entries far.now ≡ drop passed (bind ∷ entries rest.now) }
    ensures more { IfOk result (λ l. entries l ≡ bind ∷ entries rest.now) }
    ensures linked { IfOk result (λ l. AreLinked rest.now → AreLinked far.now → AreLinked l) }
{
    let rest = share(rest)?;
    let far = share(far)?;
    let entry = Entry {
        bind,
        passed,
        rest,
        far,
    };
    Ok(Link::More(Rc::new(alloc, entry)?))
}

// The number with another and one more.
fn sum_and_one(number: u32, other: u32) -> Result<u32, AllocError>
    ensures { IfOk result (λ sum. sum ≡ (1 + number) + other) }
{
    let sum = number.checked_add(other).ok_or(AllocError)?;
    sum.checked_add(1).ok_or(AllocError)
}

// The entries with one more.
fn with_entry(alloc: Global, bind: Bind, link: &Link) -> Result<Link, AllocError>
    requires { AreLinked link.now }
    ensures more { IfOk result (λ l. entries l ≡ bind ∷ entries link.now) }
    ensures linked { IfOk result (λ l. AreLinked l) }
{
    if let Link::More(newer) = link {
        if let Link::More(older) = &newer.far {
            if newer.passed == older.passed {
                let passed = sum_and_one(newer.passed, older.passed)?;
                return linked(alloc, bind, passed, link, &older.far);
            }
        }
    }
    linked(alloc, bind, 1, link, link)
}

// The entry at an index, the newest first.
fn entry_at(link: &Link, index: u32) -> Option<&Bind>
    requires { AreLinked link.now }
    ensures { option_map (λ b. b.now) result ≡ slice_get (entries link.now) index }
{
    match link {
        Link::End => None,
        Link::More(entry) => {
            if index >= entry.passed {
                entry_at(&entry.far, index - entry.passed)
            } else if index == 0 {
                Some(&entry.bind)
            } else {
                entry_at(&entry.rest, index - 1)
            }
        }
    }
}

// Whether the declared set of the entry has a hole.
fn is_open(bind: &Bind) -> bool
    ensures { result ≡ is_open (bind_of bind.now) }
{
    match bind {
        Bind::Var(ty) => holds_hole(&ty.set),
        Bind::TVar(_) => false,
        Bind::Unread { set, .. } => holds_hole(set),
    }
}

impl Ctx {
    /// The context with no entry. It takes no memory.
    pub fn new() -> Ctx
        ensures { result ≡ [] }
    {
        Ctx {
            head: Link::End,
            len: 0,
            closed: 0,
        }
    }

    /// The context with one entry more, the newest. The others are shared.
    ///
    /// Fails only for want of memory, as which a context of more than 2^32 - 1 entries counts.
    pub fn push(&self, alloc: Global, bind: Bind) -> Result<Ctx, AllocError>
        ensures { IfOk result (λ c. c ≡ bind ∷ self.now) }
    {
        let len = self.len.checked_add(1).ok_or(AllocError)?;
        let stays = self.closed < self.len || is_open(&bind);
        let closed = if stays { self.closed } else { len };
        let head = with_entry(alloc, bind, &self.head)?;
        Ok(Ctx { head, len, closed })
    }

    /// The entry at a position, if the context has so many. It takes no memory.
    pub fn get(&self, position: u32) -> Option<&Bind>
        ensures { option_map (λ b. bind_of b.now) result ≡ lookup (context_of self.now) position }
    {
        if position >= self.len {
            return None;
        }
        entry_at(&self.head, self.len - 1 - position)
    }

    /// How many entries the context has. It takes no memory.
    pub fn len(&self) -> u32
        ensures { result ≡ length self.now }
    {
        self.len
    }

    /// How many entries are older than all whose declared sets have holes. It takes no memory.
    pub fn closed(&self) -> u32
        ensures { result ≡ closed_entries (context_of self.now) }
    {
        self.closed
    }
}

/// A clone is the same context and shares its entries. It fails only for want of memory.
impl Clone for Ctx {
    ghost is_clone = { λ context copy. copy ≡ context };

    fn clone(&self) -> Result<Ctx, AllocError> {
        let head = share(&self.head)?;
        Ok(Ctx {
            head,
            len: self.len,
            closed: self.closed,
        })
    }
}
