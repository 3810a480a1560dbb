//! Streams that move few bytes a call and fail at one call after another.
ghost use Rattle.std.specs.Prelude.{◌<◌};

use crate::calls::{Plan, calls, run};
use cc_program::status::Status;
use std::alloc::{AllocError, Global};
use std::marker::Brand;
use std::sync::ledger::Blank;
use std::test::Fail;

/// Several tasks, by four schedules.
const TASKS: &[u8] = b"capc 1
device out console
device hits counter
put m 3
def one = fun (u: Unit) => hits.tick()
def two = fun (u: Unit) => val a = hits.tick(); hits.tick()
def nine = fun (u: Unit) => out.print(9)
tasks 100 0,1 m.one m.two
tasks 100 1,1,1,0 m.one m.two
tasks 100 0,1 m.one m.nine
tasks 100 1,1,1,0 m.one m.nine
tasks 1 0,1 m.one m.nine
";

/// What is answered to each command of them.
const REPLIES: [&[u8]; 6] = [
    b"put m\n",
    b"tasks\n  0 authority {hits}\n  1 authority {hits}\n  0 hits tick 1\n  1 hits tick 2\n  1 hits tick 3\n  0 done 1 after 2 steps\n  1 done 3 after 5 steps\n",
    b"tasks\n  0 authority {hits}\n  1 authority {hits}\n  1 hits tick 1\n  1 hits tick 2\n  0 hits tick 3\n  0 done 3 after 2 steps\n  1 done 2 after 5 steps\n",
    b"tasks\n  0 authority {hits}\n  1 authority {out}\n  0 hits tick 1\n  1 out print 9\n  0 done 1 after 2 steps\n  1 done unit after 3 steps\n",
    b"tasks\n  0 authority {hits}\n  1 authority {out}\n  1 out print 9\n  0 hits tick 1\n  0 done 1 after 2 steps\n  1 done unit after 3 steps\n",
    b"tasks\n  0 authority {hits}\n  1 authority {out}\n  0 out of fuel after 1 steps\n  1 out of fuel after 0 steps\n",
];

/// All of the replies.
fn whole_answer(alloc: Global) -> Result<Vec<u8>, AllocError> {
    let mut whole = Vec::new(alloc);
    for reply in REPLIES {
        whole.extend_from_slice(reply)?;
    }
    Ok(whole)
}

/// Whether a source fails at a call that is made. The last call finds the end.
fn read_is_hit(reads: Plan) -> bool
    requires { 0 < reads.most }
{
    let made = calls(TASKS.len(), reads.most).saturating_add(1);
    reads.fails != 0 && reads.fails as usize <= made
}

/// How many bytes a sink has got where it fails at a call that is made. Each reply is written by calls of its own.
fn kept_at_hit(writes: Plan) -> Option<usize>
    requires { 0 < writes.most }
{
    let mut calls_left = (writes.fails as usize).checked_sub(1)?;
    let mut kept = 0usize;
    for reply in REPLIES {
        let made = calls(reply.len(), writes.most);
        if calls_left < made {
            return Some(kept.saturating_add(calls_left.saturating_mul(writes.most)));
        }
        calls_left -= made;
        kept = kept.saturating_add(reply.len());
    }
    None
}

/// How the tasks end on such streams, and how much of the answer is written.
fn wanted(reads: Plan, writes: Plan, length: usize) -> (Status, usize)
    requires reads { 0 < reads.most }
    requires writes { 0 < writes.most }
{
    if read_is_hit(reads) {
        return (Status::ReadFault, 0);
    }
    match kept_at_hit(writes) {
        Some(kept) => (Status::WriteFault, kept),
        None => (Status::Refusals, length),
    }
}

#[test]
fn each_call_fails_in_turn(rt: HostRuntime) -> Result<(), Fail> {
    let alloc = rt.alloc();
    let whole = whole_answer(alloc)?;
    for read_most in [1usize, 7, 4096] {
        for write_most in [1usize, 5, 4096] {
            for read_fails in [0u32, 1, 2, 3, 40] {
                for write_fails in [0u32, 1, 2, 3, 40] {
                    let reads = Plan {
                        most: read_most,
                        fails: read_fails,
                    };
                    let writes = Plan {
                        most: write_most,
                        fails: write_fails,
                    };
                    let (status, length) = wanted(reads, writes, whole.len());
                    let ended = run::<Brand>(alloc, &[], TASKS, reads, writes, Blank::new(1))?;
                    assert_eq!(rt; ended.status, status);
                    assert!(rt; length <= whole.len());
                    assert_eq!(rt; ended.written.as_slice(), &whole[..length]);
                }
            }
        }
    }
    Ok(())
}
